//! What is said of the names that a module declares.
ghost use Rattle.std.specs.Prelude.{◌≡◌, IfOk, map};
ghost use Rattle.wesl_tree_syntax.specs.Tree.{before, end, forest_of};
ghost use Rattle.wesl_tree_syntax.specs.Unit.{trees_of};
ghost use Rattle.wesl_tree_syntax.specs.View.{content_view, declarations_tree, entry_view, function_view, global_view, imports_tree, parameter_view};
ghost use Rattle.wesl_tree.specs.Translation.{unit_view};
ghost use Rattle.wesl_scope_words.specs.Said.{memory_words, sayings};
ghost use Rattle.wesl_scope_words.specs.Adds.{Adds};

use crate::sayings::{Memory, Sayings};
use crate::statements::{in_compound, in_declaration};
use std::alloc::{AllocError, Global};
use wesl_tree::{
    FormalParameter, Function, GlobalDeclaration, GlobalDeclarationNode, Import, ImportContent,
    ImportStatementNode, TranslationUnit,
};

/// The name of each item that an import brings in.
#[cycle(imports)]
fn in_content(content: &ImportContent, names: &mut Sayings)
    ensures { Adds names.old (before (content_view content.now) end) names.new }
{
    match content {
        ImportContent::Item(_) => names.name(None),
        ImportContent::Collection(entries) => in_entries(entries, names),
    }
}

/// Those of the entries of an import, in order.
#[cycle(imports)]
fn in_entries(entries: &Vec<Import>, names: &mut Sayings)
    ensures { Adds names.old (forest_of (map entry_view entries.now.items)) names.new }
{
    for entry in entries {
        in_content(&entry.content, names);
    }
}

/// Those of the imports of a module.
fn in_imports(imports: &Vec<ImportStatementNode>, names: &mut Sayings)
    ensures { Adds names.old (before (imports_tree imports.now) end) names.new }
{
    for import in imports {
        in_content(&import.node.content, names);
    }
}

/// The names of parameters.
fn in_parameters(parameters: &Vec<FormalParameter>, names: &mut Sayings)
    ensures { Adds names.old (forest_of (map parameter_view parameters.now.items)) names.new }
{
    for _parameter in parameters {
        names.name(None);
    }
}

/// The name of a function, and those in it.
fn in_function(function: &Function, names: &mut Sayings)
    ensures { Adds names.old (before (function_view function.now) end) names.new }
{
    names.name(None);
    in_parameters(&function.parameters, names);
    in_compound(&function.body, names);
}

/// The name of a global declaration, if it has one, and those in it.
fn in_global(declaration: &GlobalDeclaration, names: &mut Sayings)
    ensures { Adds names.old (before (global_view declaration.now) end) names.new }
{
    match declaration {
        GlobalDeclaration::Void => {}
        GlobalDeclaration::Declaration(declaration) => in_declaration(declaration, names),
        GlobalDeclaration::TypeAlias(_) => names.name(None),
        GlobalDeclaration::Struct(_) => names.name(None),
        GlobalDeclaration::Function(function) => in_function(function, names),
        GlobalDeclaration::ConstAssert(_) => {}
    }
}

/// Those of the global declarations of a module.
fn in_declarations(declarations: &Vec<GlobalDeclarationNode>, names: &mut Sayings)
    ensures { Adds names.old (before (declarations_tree declarations.now) end) names.new }
{
    for declaration in declarations {
        in_global(&declaration.node, names);
    }
}

/// Of each name that a module declares, in document order, what is said of it.
pub fn sayings(alloc: Global, unit: &TranslationUnit) -> Result<Vec<Memory>, AllocError>
    ensures { IfOk result (λ said. map memory_words said.items ≡ sayings (trees_of (unit_view unit.now))) }
{
    let mut names = Sayings::new(alloc);
    in_imports(unit.imports(), &mut names);
    in_declarations(unit.global_declarations(), &mut names);
    names.end()
}
