//! Printing whole units.
ghost use Rattle.std.specs.Prelude.{[], Some};
ghost use Rattle.wesl_text_form.specs.Productions.{a_declaration, a_directive, an_import};
ghost use Rattle.wesl_text_form.specs.Spelling.{slots};
ghost use Rattle.wesl_text_print.specs.Printing.{Prints};
ghost use Rattle.wesl_text_print_statements.specs.Parts.{all_in};
ghost use Rattle.wesl_tree.specs.Translation.{unit_view};
ghost use Rattle.wesl_tree_syntax.specs.Unit.{spelled};
ghost use Rattle.wesl_tree_syntax.specs.View.{declarations_tree, directives_tree, imports_tree};

use crate::declaration::print_declaration;
use crate::import::{print_directive, print_import};
use wesl_text_print::TokenSink;
use wesl_tree::TranslationUnit;
use wesl_tree_names::Names;
use wesl_tree_syntax::{GlobalDeclarationNode, GlobalDirectiveNode, ImportStatementNode};

/// Prints a unit: what its slots say, where each identifier is its name. Where no text says it, the sink is told why.
pub fn print_unit<S: TokenSink>(out: &mut S, unit: &TranslationUnit)
    ensures { Prints S.after out.old out.new (slots (spelled (unit_view unit.now))) }
{
    let names = unit.names();
    let imports = unit.imports();
    let directives = unit.global_directives();
    let declarations = unit.global_declarations();
    print_imports(out, names, imports);
    begin_part(out, imports.is_empty(), directives.is_empty());
    print_directives(out, names, directives);
    begin_last_part(
        out,
        imports.is_empty(),
        directives.is_empty(),
        declarations.is_empty(),
    );
    print_declarations(out, names, declarations);
}

// Begins a part with an empty line, unless it is the first or empty.
fn begin_part<S: TokenSink>(out: &mut S, is_first: bool, is_empty: bool)
    ensures { Prints S.after out.old out.new (Some []) }
{
    if !is_first && !is_empty {
        out.line();
    }
}

// Begins the declarations with an empty line, unless nothing stands before them or there are none.
fn begin_last_part<S: TokenSink>(out: &mut S, no_imports: bool, no_directives: bool, is_empty: bool)
    ensures { Prints S.after out.old out.new (Some []) }
{
    if no_imports {
        begin_part(out, no_directives, is_empty);
    } else {
        begin_part(out, false, is_empty);
    }
}

// Prints imports, each on a line of its own.
fn print_imports<S: TokenSink>(out: &mut S, names: &Names, imports: &Vec<ImportStatementNode>)
    ensures { Prints S.after out.old out.new (all_in names.now an_import (imports_tree imports.now).children) }
{
    for import in imports {
        print_import(out, names, &import.node);
        out.line();
    }
}

// Prints directives, each on a line of its own.
fn print_directives<S: TokenSink>(out: &mut S, names: &Names, directives: &Vec<GlobalDirectiveNode>)
    ensures { Prints S.after out.old out.new (all_in names.now a_directive (directives_tree directives.now).children) }
{
    for directive in directives {
        print_directive(out, names, &directive.node);
        out.line();
    }
}

// Prints declarations with an empty line between them.
fn print_declarations<S: TokenSink>(
    out: &mut S,
    names: &Names,
    declarations: &Vec<GlobalDeclarationNode>,
)
    ensures { Prints S.after out.old out.new (all_in names.now a_declaration (declarations_tree declarations.now).children) }
{
    let mut is_first = true;
    for declaration in declarations {
        begin_part(out, is_first, false);
        is_first = false;
        print_declaration(out, names, &declaration.node);
        out.line();
    }
}
