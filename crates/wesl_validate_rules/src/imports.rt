//! The names that imports without a condition bind.
ghost use Rattle.std.specs.Prelude.{◌≡◌, ◌++◌, flat_map, OnOk};
ghost use Rattle.wesl_scope_strip.specs.Forests.{one_begins};
ghost use Rattle.wesl_tree_syntax.specs.Tree.{before, end};
ghost use Rattle.wesl_tree_syntax.specs.View.{attribute_view, attributes_tree, content_view, item_view, import_view, imports_tree};
ghost use Rattle.wesl_validate_rules.specs.Names.{is_condition, imported_in, imported};
ghost use Rattle.wesl_validate_rules.specs.Gathered.{gathered};

use std::alloc::AllocError;
use wesl_tree_syntax::{
    Attribute, Attributes, ImportContent, ImportItem, ImportStatement, ImportStatementNode,
};

fn is_condition(attribute: &Attribute) -> bool
    ensures { result ≡ is_condition (attribute_view attribute.now).label }
{
    match attribute {
        Attribute::If(_) => true,
        Attribute::Elif(_) => true,
        Attribute::Else => true,
        _ => false,
    }
}

/// Whether one of the attributes is a condition.
pub fn is_conditional(attributes: &Attributes) -> bool
    ensures { result ≡ one_begins is_condition (attributes_tree attributes.now).children }
{
    for attribute in attributes {
        if is_condition(&attribute.node) {
            return true;
        }
    }
    false
}

fn add_item(numbers: &mut Vec<usize>, item: &ImportItem) -> Result<(), AllocError>
    ensures { OnOk result (numbers.new.items ≡ gathered numbers.old.items (before (item_view item.now) end)) }
{
    match item.rename {
        Some(rename) => numbers.push(rename.0)?,
        None => numbers.push(item.ident.0)?,
    }
    Ok(())
}

/// Adds the names that the content of an import binds.
#[cycle(imports)]
#[tactic(auto, using(wesl_tree_syntax::proofs::Views::view_entry))]
fn add_content(numbers: &mut Vec<usize>, content: &ImportContent) -> Result<(), AllocError>
    ensures { OnOk result (numbers.new.items ≡ gathered numbers.old.items (before (content_view content.now) end)) }
{
    match content {
        ImportContent::Item(item) => add_item(numbers, item),
        ImportContent::Collection(entries) => {
            for entry in entries {
                add_content(numbers, &entry.content)?;
            }
            Ok(())
        }
    }
}

/// Adds the names that an import binds, if it has no condition.
fn add_import(numbers: &mut Vec<usize>, import: &ImportStatement) -> Result<(), AllocError>
    ensures { OnOk result (numbers.new.items ≡ numbers.old.items ++ imported_in (before (import_view import.now) end)) }
{
    if is_conditional(&import.attributes) {
        return Ok(());
    }
    add_content(numbers, &import.content)
}

/// Adds the names that imports without a condition bind. Refused for want of memory alone.
pub fn add_imports(
    numbers: &mut Vec<usize>,
    imports: &Vec<ImportStatementNode>,
) -> Result<(), AllocError>
    ensures { OnOk result (numbers.new.items ≡ numbers.old.items ++ imported (imports_tree imports.now).children) }
{
    for import in imports {
        add_import(numbers, &import.node)?;
    }
    Ok(())
}
