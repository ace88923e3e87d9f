//! Reading declarations of variables and values.
ghost use Rattle.std.specs.Prelude.{◌≡◌, List, Some};
ghost use Rattle.wesl_tree_names.specs.Path.{Text};
ghost use Rattle.wesl_tree_syntax.specs.Tree.{declaration, kind};
ghost use Rattle.wesl_tree_syntax.specs.View.{declaration_view, expression_tree, optional as option_view, type_view};
ghost use Rattle.wesl_text_tokens.specs.declared.symbol.Symbol.TheVariants as symbols;
ghost use Rattle.wesl_text_form.specs.Productions.{a_bare_declaration, a_bare_statement, a_type, an_expression, nothing, own, sym};
ghost use Rattle.wesl_text_read.specs.Leads.{Reads};
ghost use Rattle.wesl_text_read.specs.Levels.{inner};
ghost use Rattle.wesl_text_read.specs.Parts.{may_at};
ghost use Rattle.wesl_text_read_simple.specs.Parts.{ReadsParts, declared_in, may_stand, variable_row};
ghost use Rattle.wesl_text_read_simple.specs.Simple.{unended_at};
ghost use Rattle.wesl_text_read_simple.specs.Starts.{DeclarationBegins, StatementBegins};

use crate::kind::read_kind;
use wesl_text_read::{Expected, Reader, Within};
use wesl_text_tokens::Symbol;
use wesl_tree_syntax::{Declaration, DeclarationKind, ExpressionNode, TypeExpression};

// `:` and a type, where they stand.
fn optional_type(reader: &mut Reader<'_>) -> Option<TypeExpression>
    ensures { Reads (may_at reader.old.levels (sym symbols.Colon (own a_type nothing)))
        (option_view type_view result) reader.old reader.new }
{
    if !reader.begins_sign(Symbol::Colon) {
        return None;
    }
    reader.skip_sign(Symbol::Colon);
    Some(reader.type_expression())
}

// `=` and a value, where they stand.
fn optional_value(reader: &mut Reader<'_>) -> Option<ExpressionNode>
    ensures { Reads (may_at reader.old.levels (sym symbols.Equal (own an_expression nothing)))
        (option_view expression_tree result) reader.old reader.new }
{
    if !reader.begins_sign(Symbol::Equal) {
        return None;
    }
    reader.skip_sign(Symbol::Equal);
    Some(reader.expression(Within::Anything))
}

// A declaration without its `;`, wherever it stands.
fn read_variable(reader: &mut Reader<'_>) -> Declaration
    ensures { ReadsParts variable_row (declaration_view result).children reader.old reader.new }
{
    let attributes = reader.attributes();
    let kind = read_kind(reader);
    let ident = reader.ident();
    let ty = optional_type(reader);
    let initializer = optional_value(reader);
    Declaration {
        attributes,
        kind,
        ident,
        ty,
        initializer,
    }
}

// Whether a declaration may stand in a function: it declares no `override`, and `const` and `let` have values.
fn stands_in_function(declaration: &Declaration) -> bool
    ensures { (names : List Text) → result ≡ may_stand a_bare_statement (declared_in names declaration.now) }
{
    match declaration.kind {
        DeclarationKind::Const | DeclarationKind::Let => declaration.initializer.is_some(),
        DeclarationKind::Override => false,
        DeclarationKind::Var(_) => true,
    }
}

// Whether a declaration may stand outside of functions: it declares no `let`, and `const` has a value.
fn stands_outside(declaration: &Declaration) -> bool
    ensures { (names : List Text) → result ≡ may_stand a_bare_declaration (declared_in names declaration.now) }
{
    match declaration.kind {
        DeclarationKind::Const => declaration.initializer.is_some(),
        DeclarationKind::Let => false,
        DeclarationKind::Override | DeclarationKind::Var(_) => true,
    }
}

/// A declaration in a function, without its `;`.
pub fn read_local_variable(reader: &mut Reader<'_>) -> Declaration
    requires { StatementBegins (Some (kind declaration)) reader.old }
    ensures { Reads (unended_at reader.old.levels) (declaration_view result) reader.old reader.new }
{
    let declaration = read_variable(reader);
    reader.wrong_if(
        !stands_in_function(&declaration),
        Expected::Symbol(Symbol::Equal),
    );
    declaration
}

/// A declaration outside of functions: a constant, an overridable one or a variable.
pub fn read_global_variable(reader: &mut Reader<'_>) -> Declaration
    requires { DeclarationBegins (Some (kind declaration)) reader.old }
    ensures { Reads (inner reader.old.levels a_bare_declaration) (declaration_view result) reader.old reader.new }
{
    let declaration = read_variable(reader);
    reader.wrong_if(
        !stands_outside(&declaration),
        Expected::Symbol(Symbol::Equal),
    );
    reader.skip_sign(Symbol::Semicolon);
    declaration
}
