//! The faults of a formula.
ghost use Rattle.wesl_cond_chains.specs.Places.{formula_places};
ghost use Rattle.wesl_cond_faults.specs.Telling.{AddsFound};
ghost use Rattle.wesl_cond_chains.specs.Step.{form_of, name_form};

use crate::told::Told;
use wesl_cond_chains::name_of;
use wesl_cond_features::{Feature, Features};
use wesl_tree_names::{CondCompError, Names, Span};
use wesl_tree_syntax::{
    BinaryOperator, Expression, ExpressionNode, Literal, TypeExpression, UnaryOperator,
};

/// Tells what is wrong with a name that stands for a flag. `span` is the place of its expression.
fn tell_flag(told: &mut Told, ty: &TypeExpression, span: Span, names: &Names, features: &Features)
    ensures { AddsFound names.now features.now (λ r. formula_places r span (name_form ty.now)) told.old told.new }
{
    let name = name_of(names, ty.ident);
    if ty.template_args.is_some() {
        told.tell_invalid(name, span);
    } else {
        match features.answer(name) {
            Feature::Error => told.tell_unexpected(name, span),
            Feature::Enable | Feature::Disable | Feature::Keep => {}
        }
    }
}

/// Tells the faults of a formula, those of both sides of `&&` and `||`, each at the place of the expression at fault.
#[cycle(telling)]
pub fn tell_formula(told: &mut Told, formula: &ExpressionNode, names: &Names, features: &Features)
    ensures { AddsFound names.now features.now (λ r. formula_places r formula.now.span (form_of formula.now.node)) told.old told.new }
{
    match &formula.node {
        Expression::Literal(Literal::Bool(true)) => {}
        Expression::Literal(Literal::Bool(false)) => {}
        Expression::Parenthesized { expression } => tell_formula(told, expression, names, features),
        Expression::Unary {
            operator: UnaryOperator::LogicalNegation,
            operand,
        } => tell_formula(told, operand, names, features),
        Expression::Binary {
            operator,
            left,
            right,
        } => match operator {
            BinaryOperator::ShortCircuitAnd | BinaryOperator::ShortCircuitOr => {
                tell_formula(told, left, names, features);
                tell_formula(told, right, names, features);
            }
            BinaryOperator::Addition
            | BinaryOperator::Subtraction
            | BinaryOperator::Multiplication
            | BinaryOperator::Division
            | BinaryOperator::Remainder
            | BinaryOperator::Equality
            | BinaryOperator::Inequality
            | BinaryOperator::LessThan
            | BinaryOperator::LessThanEqual
            | BinaryOperator::GreaterThan
            | BinaryOperator::GreaterThanEqual
            | BinaryOperator::BitwiseOr
            | BinaryOperator::BitwiseAnd
            | BinaryOperator::BitwiseXor
            | BinaryOperator::ShiftLeft
            | BinaryOperator::ShiftRight => {
                told.tell(CondCompError::InvalidExpression, formula.span);
            }
        },
        Expression::TypeOrIdentifier(ty) => tell_flag(told, ty, formula.span, names, features),
        Expression::Literal(Literal::Text(_))
        | Expression::NamedComponent { .. }
        | Expression::Indexing { .. }
        | Expression::Unary { .. }
        | Expression::FunctionCall(_) => {
            told.tell(CondCompError::InvalidExpression, formula.span);
        }
    }
}
