//! The names that a module declares for itself without a condition.
ghost use Rattle.std.specs.Prelude.{◌≡◌, ◌++◌, [], ◌∷◌, if◌then◌else◌, IfOk, OnOk};
ghost use Rattle.wesl_scope_strip.specs.Forests.{one_begins};
ghost use Rattle.wesl_tree_syntax.specs.Tree.{before, end};
ghost use Rattle.wesl_tree_syntax.specs.View.{attributes_tree, global_view, declarations_tree};
ghost use Rattle.wesl_tree.specs.Translation.{unit_view};
ghost use Rattle.wesl_validate_rules.specs.Names.{is_condition, declared_in, declared, plain_numbers};

use crate::imports::{add_imports, is_conditional};
use std::alloc::{AllocError, Global};
use wesl_tree::TranslationUnit;
use wesl_tree_names::Ident;
use wesl_tree_syntax::{Attributes, GlobalDeclaration, GlobalDeclarationNode};

/// Adds a name, if these attributes of its declaration hold no condition.
fn add_plain(
    numbers: &mut Vec<usize>,
    attributes: &Attributes,
    ident: Ident,
) -> Result<(), AllocError>
    ensures { OnOk result (numbers.new.items ≡ numbers.old.items ++ (if one_begins is_condition (attributes_tree attributes.now).children then [] else ident.0 ∷ [])) }
{
    if !is_conditional(attributes) {
        numbers.push(ident.0)?;
    }
    Ok(())
}

/// Adds the name that a declaration declares, if it has no condition.
fn add_declaration(
    numbers: &mut Vec<usize>,
    declaration: &GlobalDeclaration,
) -> Result<(), AllocError>
    ensures { OnOk result (numbers.new.items ≡ numbers.old.items ++ declared_in (before (global_view declaration.now) end)) }
{
    match declaration {
        GlobalDeclaration::Void => Ok(()),
        GlobalDeclaration::Declaration(value) => {
            add_plain(numbers, &value.attributes, value.ident)
        }
        GlobalDeclaration::TypeAlias(alias) => add_plain(numbers, &alias.attributes, alias.ident),
        GlobalDeclaration::Struct(record) => add_plain(numbers, &record.attributes, record.ident),
        GlobalDeclaration::Function(function) => {
            add_plain(numbers, &function.attributes, function.ident)
        }
        GlobalDeclaration::ConstAssert(_) => Ok(()),
    }
}

/// Adds the names that declarations without a condition declare. Refused for want of memory alone.
fn add_declarations(
    numbers: &mut Vec<usize>,
    declarations: &Vec<GlobalDeclarationNode>,
) -> Result<(), AllocError>
    ensures { OnOk result (numbers.new.items ≡ numbers.old.items ++ declared (declarations_tree declarations.now).children) }
{
    for declaration in declarations {
        add_declaration(numbers, &declaration.node)?;
    }
    Ok(())
}

/// The numbers of the names of imports and declarations without a condition, in the order of the source.
pub fn plain_numbers(alloc: Global, unit: &TranslationUnit) -> Result<Vec<usize>, AllocError>
    ensures { IfOk result (λ numbers. numbers.items ≡ plain_numbers (unit_view unit.now)) }
{
    let mut numbers = Vec::new(alloc);
    add_imports(&mut numbers, unit.imports())?;
    add_declarations(&mut numbers, unit.global_declarations())?;
    Ok(numbers)
}
