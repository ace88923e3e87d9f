//! The spans of the identifiers of imports and directives.
ghost use Rattle.wesl_tree_syntax.specs.Tree.{list};
ghost use Rattle.wesl_tree_syntax.specs.View.{content_view, directive_view, directives_tree, entry_view, import_view, imports_tree, item_view, listed};
ghost use Rattle.wesl_scope_spans.specs.Adds.{Adds, AddsAnywhere};

use crate::attributes::in_attributes;
use crate::places::Places;
use wesl_tree::{
    GlobalDirective, GlobalDirectiveNode, Import, ImportContent, ImportItem, ImportStatement,
    ImportStatementNode, Span,
};

/// That of the name of an item, then that of its new name, if it has one.
fn in_item(item: &ImportItem, round: Span, places: &mut Places)
    ensures { Adds round places.old (item_view item.now) places.new }
{
    places.meet(round);
    match item.rename {
        None => {}
        Some(_) => places.meet(round),
    }
}

/// Those of what an import brings in: of an item, or of entries in braces.
#[cycle(imports)]
fn in_content(content: &ImportContent, round: Span, places: &mut Places)
    ensures { Adds round places.old (content_view content.now) places.new }
{
    match content {
        ImportContent::Item(item) => in_item(item, round, places),
        ImportContent::Collection(entries) => in_entries(entries, round, places),
    }
}

/// Those of the entries of an import, in order.
#[cycle(imports)]
fn in_entries(entries: &Vec<Import>, round: Span, places: &mut Places)
    ensures { Adds round places.old (listed entry_view list entries.now) places.new }
{
    for entry in entries {
        in_content(&entry.content, round, places);
    }
}

/// Those of an import statement.
fn in_import(import: &ImportStatement, round: Span, places: &mut Places)
    ensures { Adds round places.old (import_view import.now) places.new }
{
    in_attributes(&import.attributes, places);
    in_content(&import.content, round, places);
}

/// Those of the import statements of a module, in order.
pub fn in_imports(imports: &Vec<ImportStatementNode>, places: &mut Places)
    ensures { AddsAnywhere places.old (imports_tree imports.now) places.new }
{
    for import in imports {
        in_import(&import.node, import.span, places);
    }
}

/// Those of a directive, all of them in its attributes.
fn in_directive(directive: &GlobalDirective, places: &mut Places)
    ensures { AddsAnywhere places.old (directive_view directive.now) places.new }
{
    match directive {
        GlobalDirective::Diagnostic { attributes, .. }
        | GlobalDirective::Enable { attributes, .. }
        | GlobalDirective::Requires { attributes, .. } => in_attributes(attributes, places),
    }
}

/// Those of the directives of a module, in order.
pub fn in_directives(directives: &Vec<GlobalDirectiveNode>, places: &mut Places)
    ensures { AddsAnywhere places.old (directives_tree directives.now) places.new }
{
    for directive in directives {
        in_directive(&directive.node, places);
    }
}
