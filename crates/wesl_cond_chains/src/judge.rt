//! The faults of a formula.
ghost use Rattle.std.specs.Prelude.{◌≡◌, ℕ, List, [], ◌∷◌};
ghost use Rattle.wesl_cond_chains.specs.Evaluation.{Judges, Refuses};
ghost use Rattle.wesl_cond_chains.specs.FormulaFaults.{invalid_expression, invalid_flag, unexpected_flag};
ghost use Rattle.wesl_cond_chains.specs.Nodes.{replies};
ghost use Rattle.wesl_cond_chains.specs.Places.{formula_places, found_at};
ghost use Rattle.wesl_cond_chains.specs.Step.{form_of, name_form};
ghost use Rattle.wesl_tree_names.specs.Path.{Text};
ghost use Rattle.wesl_tree_syntax.specs.Unit.{name_in};

use crate::formula::name_of;
use std::alloc::Global;
use wesl_cond_features::{Feature, Features};
use wesl_tree_names::{CondCompError, Diagnostic, Error, Names, Span};
use wesl_tree_syntax::{
    BinaryOperator, Expression, ExpressionNode, Literal, TypeExpression, UnaryOperator,
};

/// The refusal of what is no formula, at its place.
fn invalid_expression(span: Span) -> Diagnostic
    ensures { (names : List Text) → Refuses names (found_at span invalid_expression ∷ []) result }
{
    Diagnostic::at(Error::CondComp(CondCompError::InvalidExpression), span)
}

/// The refusal of a flag with template arguments, at its place.
fn invalid_flag(alloc: Global, name: &str, span: Span) -> Diagnostic
    ensures { (names : List Text) → (number : ℕ) → name_in names number ≡ name.now → Refuses names (found_at span (invalid_flag number) ∷ []) result }
{
    match String::from_str(alloc, name) {
        Ok(name) => {
            Diagnostic::at(
                Error::CondComp(CondCompError::InvalidFeatureFlag(name)),
                span,
            )
        }
        Err(_) => Diagnostic::at(Error::Memory, span),
    }
}

/// The refusal of a flag that is answered by one, at its place.
fn unexpected_flag(alloc: Global, name: &str, span: Span) -> Diagnostic
    ensures { (names : List Text) → (number : ℕ) → name_in names number ≡ name.now → Refuses names (found_at span (unexpected_flag number) ∷ []) result }
{
    match String::from_str(alloc, name) {
        Ok(name) => {
            Diagnostic::at(
                Error::CondComp(CondCompError::UnexpectedFeatureFlag(name)),
                span,
            )
        }
        Err(_) => Diagnostic::at(Error::Memory, span),
    }
}

/// Judges a name that stands for a flag, with the place of its expression.
fn check_flag(
    alloc: Global,
    ty: &TypeExpression,
    span: Span,
    names: &Names,
    features: &Features,
) -> Result<(), Diagnostic>
    ensures { Judges names.now (formula_places (replies names.now features.now) span (name_form ty.now)) result }
{
    let name = name_of(names, ty.ident);
    if ty.template_args.is_some() {
        return Err(invalid_flag(alloc, name, span));
    }
    match features.answer(name) {
        Feature::Error => Err(unexpected_flag(alloc, name, span)),
        Feature::Enable | Feature::Disable | Feature::Keep => Ok(()),
    }
}

/// Judges a formula, both sides of `&&` and `||`, and refuses one of its faults where it has one, at the place of the
/// expression at fault. Memory is taken to tell a fault alone.
#[cycle(judging)]
pub fn check_formula(
    alloc: Global,
    formula: &ExpressionNode,
    names: &Names,
    features: &Features,
) -> Result<(), Diagnostic>
    ensures { Judges names.now (formula_places (replies names.now features.now) formula.now.span (form_of formula.now.node)) result }
{
    match &formula.node {
        Expression::Literal(Literal::Bool(true)) => Ok(()),
        Expression::Literal(Literal::Bool(false)) => Ok(()),
        Expression::Parenthesized { expression } => {
            check_formula(alloc, expression, names, features)
        }
        Expression::Unary {
            operator: UnaryOperator::LogicalNegation,
            operand,
        } => check_formula(alloc, operand, names, features),
        Expression::Binary {
            operator,
            left,
            right,
        } => match operator {
            BinaryOperator::ShortCircuitAnd | BinaryOperator::ShortCircuitOr => {
                match check_formula(alloc, left, names, features) {
                    Ok(()) => check_formula(alloc, right, names, features),
                    Err(fault) => Err(fault),
                }
            }
            BinaryOperator::Addition
            | BinaryOperator::Subtraction
            | BinaryOperator::Multiplication
            | BinaryOperator::Division
            | BinaryOperator::Remainder
            | BinaryOperator::Equality
            | BinaryOperator::Inequality
            | BinaryOperator::LessThan
            | BinaryOperator::LessThanEqual
            | BinaryOperator::GreaterThan
            | BinaryOperator::GreaterThanEqual
            | BinaryOperator::BitwiseOr
            | BinaryOperator::BitwiseAnd
            | BinaryOperator::BitwiseXor
            | BinaryOperator::ShiftLeft
            | BinaryOperator::ShiftRight => Err(invalid_expression(formula.span)),
        },
        Expression::TypeOrIdentifier(ty) => check_flag(alloc, ty, formula.span, names, features),
        Expression::Literal(Literal::Text(_))
        | Expression::NamedComponent { .. }
        | Expression::Indexing { .. }
        | Expression::Unary { .. }
        | Expression::FunctionCall(_) => Err(invalid_expression(formula.span)),
    }
}
