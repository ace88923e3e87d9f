//! Types as the Unicode form writes them.
ghost use Rattle.std.specs.Prelude.{◌≡◌, ◌&&◌, List, true, length, map};
ghost use Rattle.wesl_tree_names.specs.Path.{Text};
ghost use Rattle.std.specs.List.{list_all};
ghost use Rattle.wesl_tree_syntax.specs.Tree.{tree_below, list};
ghost use Rattle.wesl_tree_syntax.specs.View.{type_view, argument_view, expression_view, listed, literal_tree};
ghost use Rattle.wesl_mangle_forms.specs.TypeText.{mark_before, tree_text, is_literal_or_type, is_normal, is_normal_type, bracketed};
ghost use Rattle.wesl_mangle_forms.specs.Written.{AddsText};

use crate::writer::Writer;
use wesl_tree_names::Names;
use wesl_tree_syntax::{Expression, Literal, TemplateArg, TypeExpression};

/// Opens a list of types.
const OPENING: &str = "\u{1438}";
/// Closes a list of types.
const CLOSING: &str = "\u{1433}";
/// Stands between two types.
const BETWEEN: &str = "\u{2cf}";

/// Whether each argument of the type, and of a type among these, is a literal or a type.
#[cycle(normal)]
pub fn is_normal_type(ty: &TypeExpression) -> bool
    ensures { result ≡ is_normal_type (type_view ty.now) }
{
    match &ty.template_args {
        None => true,
        Some(arguments) => are_normal_arguments(arguments),
    }
}

#[cycle(normal)]
fn are_normal_arguments(arguments: &Vec<TemplateArg>) -> bool
    ensures { result ≡ is_normal_type (listed argument_view list arguments.now) }
{
    for argument in arguments {
        if !is_normal_argument(&argument.expression.node) {
            return false;
        }
    }
    true
}

#[cycle(normal)]
fn is_normal_argument(expression: &Expression) -> bool
    ensures { result ≡ (is_literal_or_type (expression_view expression.now).label && is_normal (expression_view expression.now).children) }
{
    match expression {
        Expression::Literal(_) => true,
        Expression::TypeOrIdentifier(ty) => is_normal_type(ty),
        Expression::Parenthesized { .. }
        | Expression::NamedComponent { .. }
        | Expression::Indexing { .. }
        | Expression::Unary { .. }
        | Expression::Binary { .. }
        | Expression::FunctionCall(_) => false,
    }
}

/// Adds the mark between two types, except before the first place.
fn push_mark(text: &mut Writer, place: usize)
    ensures { AddsText text.old text.new (mark_before place) }
{
    text.push(if place == 0 { "" } else { BETWEEN });
}

/// Adds the name of the type, and its arguments in brackets.
#[cycle(written)]
fn push_type(text: &mut Writer, names: &Names, ty: &TypeExpression)
    requires below { tree_below (length names.now) (type_view ty.now) ≡ true }
    requires normal { is_normal_type (type_view ty.now) ≡ true }
    ensures { AddsText text.old text.new (tree_text names.now (type_view ty.now)) }
{
    text.push(names.name(ty.ident));
    if let Some(arguments) = &ty.template_args {
        push_arguments(text, names, arguments);
    }
}

#[cycle(written)]
fn push_arguments(text: &mut Writer, names: &Names, arguments: &Vec<TemplateArg>)
    requires below { tree_below (length names.now) (listed argument_view list arguments.now) ≡ true }
    requires normal { is_normal_type (listed argument_view list arguments.now) ≡ true }
    ensures { AddsText text.old text.new (tree_text names.now (listed argument_view list arguments.now)) }
{
    text.push(OPENING);
    for (place, argument) in arguments.iter().enumerate() {
        push_mark(text, place);
        push_argument(text, names, &argument.expression.node);
    }
    text.push(CLOSING);
}

#[cycle(written)]
fn push_argument(text: &mut Writer, names: &Names, expression: &Expression)
    requires below { tree_below (length names.now) (expression_view expression.now) ≡ true }
    requires normal { (is_literal_or_type (expression_view expression.now).label && is_normal (expression_view expression.now).children) ≡ true }
    ensures { AddsText text.old text.new (tree_text names.now (expression_view expression.now)) }
{
    match expression {
        Expression::Literal(literal) => push_literal(text, literal),
        Expression::TypeOrIdentifier(ty) => push_type(text, names, ty),
        Expression::Parenthesized { .. }
        | Expression::NamedComponent { .. }
        | Expression::Indexing { .. }
        | Expression::Unary { .. }
        | Expression::Binary { .. }
        | Expression::FunctionCall(_) => unreachable!(),
    }
}

/// Adds the literal as it is spelled.
fn push_literal(text: &mut Writer, literal: &Literal)
    ensures { (names : List Text) → AddsText text.old text.new (tree_text names (literal_tree literal.now)) }
{
    match literal {
        Literal::Bool(value) => text.push(if *value { "true" } else { "false" }),
        Literal::Text(spelled) => text.push(spelled.as_str()),
    }
}

/// Adds the types in brackets.
pub fn push_types(text: &mut Writer, names: &Names, types: &[TypeExpression])
    requires below { list_all (tree_below (length names.now)) (map type_view types.now) ≡ true }
    requires normal { list_all is_normal_type (map type_view types.now) ≡ true }
    ensures { AddsText text.old text.new (bracketed (map (tree_text names.now) (map type_view types.now))) }
{
    text.push(OPENING);
    for (place, ty) in types.iter().enumerate() {
        push_mark(text, place);
        push_type(text, names, ty);
    }
    text.push(CLOSING);
}
