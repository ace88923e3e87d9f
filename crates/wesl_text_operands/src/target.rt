//! Which expressions may be assigned to, and how they begin (WGSL, "Assignment Statement").
ghost use Rattle.std.specs.Prelude.{[], List, false, ◌≡◌, ◌∷◌};
ghost use Rattle.wesl_text_form.specs.Operators.{is_place_operator};
ghost use Rattle.wesl_text_form.specs.Spelling.{begins_enclosed, ends_open, leads_to_place};
ghost use Rattle.wesl_text_operands.specs.Targets.{are_apart_in, is_target_in, plain_attribute, spelled_attributes, spelled_in};
ghost use Rattle.wesl_tree_names.specs.Path.{Text};

use crate::class::{class_of, is_tight};
use wesl_tree_syntax::{Attribute, Attributes, Expression, UnaryOperator};

/// Whether an expression may be assigned to, whatever the names of its identifiers.
pub fn is_target(expression: &Expression) -> bool
    ensures { (names : List Text) → result ≡ is_target_in names expression.now }
{
    is_tight(class_of(expression)) && leads_to_place(expression)
}

// Whether an expression leads to a place: a name, or `*`, `&`, `.`, `[..]` and parentheses round what does.
fn leads_to_place(expression: &Expression) -> bool
    ensures { (names : List Text) → result ≡ leads_to_place (spelled_in names expression.now) }
{
    match expression {
        Expression::Literal(_literal) => false,
        Expression::Parenthesized { expression: inner } => leads_to_place(&inner.node),
        Expression::NamedComponent {
            base,
            component: _component,
        } => leads_to_place(&base.node),
        Expression::Indexing {
            base,
            index: _index,
        } => leads_to_place(&base.node),
        Expression::Unary { operator, operand } => {
            is_place_operator(*operator) && leads_to_place(&operand.node)
        }
        Expression::Binary {
            operator: _operator,
            left: _left,
            right: _right,
        } => false,
        Expression::FunctionCall(_call) => false,
        Expression::TypeOrIdentifier(_ty) => true,
    }
}

// Whether an operator leads to a place.
fn is_place_operator(operator: UnaryOperator) -> bool
    ensures { result ≡ is_place_operator operator }
{
    match operator {
        UnaryOperator::Indirection | UnaryOperator::AddressOf => true,
        _ => false,
    }
}

// Whether the text of an expression begins with `(`.
fn begins_enclosed(expression: &Expression) -> bool
    ensures { (names : List Text) → result ≡ begins_enclosed (spelled_in names expression.now) }
{
    match expression {
        Expression::Literal(_literal) => false,
        Expression::Parenthesized { expression: _inner } => true,
        Expression::NamedComponent {
            base,
            component: _component,
        } => begins_enclosed(&base.node),
        Expression::Indexing {
            base,
            index: _index,
        } => begins_enclosed(&base.node),
        Expression::Unary {
            operator: _operator,
            operand: _operand,
        } => false,
        Expression::Binary {
            operator: _operator,
            left: _left,
            right: _right,
        } => false,
        Expression::FunctionCall(_call) => false,
        Expression::TypeOrIdentifier(_ty) => false,
    }
}

// Whether the last of the attributes is one of another name without operands: a `(` behind it would begin its operands.
fn ends_open(attributes: &Attributes) -> bool
    ensures { (names : List Text) → result ≡ ends_open (spelled_attributes names attributes.now.items) }
{
    match attributes.last() {
        Some(attribute) => is_open(&attribute.node),
        None => false,
    }
}

// Whether an attribute is one of another name without operands.
fn is_open(attribute: &Attribute) -> bool
    ensures { (names : List Text) → result ≡ ends_open (spelled_attributes names (plain_attribute attribute.now ∷ [])) }
{
    match attribute {
        Attribute::Custom {
            name: _name,
            arguments,
        } => arguments.is_none(),
        _ => false,
    }
}

/// Whether the attributes of a statement end where its first expression begins, whatever the names of identifiers.
pub fn are_apart(attributes: &Attributes, expression: &Expression) -> bool
    ensures { (names : List Text) → result ≡ are_apart_in names attributes.now expression.now }
{
    !(ends_open(attributes) && begins_enclosed(expression))
}
