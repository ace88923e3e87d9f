//! What is left of a formula, in its own place.
ghost use Rattle.std.specs.Prelude.{◌≡◌};
ghost use Rattle.wesl_cond_chains.specs.Formulas.{conjunction, disjunction, negation, within, written};
ghost use Rattle.wesl_cond_chains.specs.FormulaResidual.{decided, either_of, both_of, literal, negated, parenthesized, residual, is_joined};
ghost use Rattle.wesl_cond_chains.specs.Nodes.{answers};
ghost use Rattle.wesl_cond_chains.specs.Step.{form_of, instead, joined, name_form, operands_left, step};
ghost use Rattle.wesl_tree_syntax.specs.Unit.{name_in};
ghost use Rattle.wesl_tree_syntax.specs.View.{expression_view};

use std::mem;
use wesl_cond_features::{Feature, Features, Truth};
use wesl_tree_names::{Ident, Names};
use wesl_tree_syntax::{
    BinaryOperator, Expression, ExpressionNode, Literal, TypeExpression, UnaryOperator,
};

/// The name of an identifier, empty where the table has none.
pub fn name_of<'a>(names: &'a Names, ident: Ident) -> &'a str
    ensures { result.now ≡ name_in names.now ident.0 }
{
    if ident.0 < names.len() {
        names.name(ident)
    } else {
        ""
    }
}

/// Whether an expression is `true` or `false`, and which.
pub fn literal_value(expression: &Expression) -> Truth
    ensures { result ≡ literal (form_of expression.now) }
{
    match expression {
        Expression::Literal(Literal::Bool(true)) => Truth::Yes,
        Expression::Literal(Literal::Bool(false)) => Truth::No,
        Expression::Literal(Literal::Text(_))
        | Expression::Parenthesized { .. }
        | Expression::NamedComponent { .. }
        | Expression::Indexing { .. }
        | Expression::Unary { .. }
        | Expression::Binary { .. }
        | Expression::FunctionCall(_)
        | Expression::TypeOrIdentifier(_) => Truth::Undecided,
    }
}

/// Whether an expression joins two formulas.
fn is_joined(expression: &Expression) -> bool
    ensures { result ≡ is_joined (form_of expression.now) }
{
    match expression {
        Expression::Binary {
            operator: BinaryOperator::ShortCircuitAnd | BinaryOperator::ShortCircuitOr,
            ..
        } => true,
        Expression::Literal(Literal::Bool(true))
        | Expression::Literal(Literal::Bool(false))
        | Expression::Literal(Literal::Text(_))
        | Expression::Parenthesized { .. }
        | Expression::NamedComponent { .. }
        | Expression::Indexing { .. }
        | Expression::Unary { .. }
        | Expression::Binary { .. }
        | Expression::FunctionCall(_)
        | Expression::TypeOrIdentifier(_) => false,
    }
}

/// Takes an expression out of its place.
fn taken(node: &mut ExpressionNode) -> Expression
    ensures taken { result ≡ node.old.node }
{
    mem::replace(&mut node.node, Expression::Literal(Literal::Bool(true)))
}

/// What takes the place of a formula in parentheses, if anything does: they stay only round a formula that joins two.
#[tactic(auto, using(crate::proofs::Steps::parenthesized_rule))]
fn unwrapped(inner: &mut ExpressionNode) -> Option<Expression>
    ensures { instead result (within inner.new.span (form_of inner.new.node)) ≡ parenthesized inner.old.span (form_of inner.old.node) }
{
    if is_joined(&inner.node) {
        None
    } else {
        Some(taken(inner))
    }
}

/// What takes the place of a negation, if anything does: the other literal.
fn negated(operand: &ExpressionNode) -> Option<Expression>
    ensures { instead result (negation operand.now.span (form_of operand.now.node)) ≡ negated operand.now.span (form_of operand.now.node) }
{
    match literal_value(&operand.node) {
        Truth::Yes => Some(Expression::Literal(Literal::Bool(false))),
        Truth::No => Some(Expression::Literal(Literal::Bool(true))),
        Truth::Undecided => None,
    }
}

/// What takes the place of `left && right`, if anything does.
fn both(left: &mut ExpressionNode, right: &mut ExpressionNode) -> Option<Expression>
    ensures { instead result (joined conjunction left.new right.new) ≡ joined both_of left.old right.old }
{
    match (literal_value(&left.node), literal_value(&right.node)) {
        (Truth::No, _) | (_, Truth::No) => Some(Expression::Literal(Literal::Bool(false))),
        (Truth::Yes, Truth::Yes) => Some(Expression::Literal(Literal::Bool(true))),
        (Truth::Yes, Truth::Undecided) => Some(taken(right)),
        (Truth::Undecided, Truth::Yes) => Some(taken(left)),
        (Truth::Undecided, Truth::Undecided) => None,
    }
}

/// What takes the place of `left || right`, if anything does.
fn either(left: &mut ExpressionNode, right: &mut ExpressionNode) -> Option<Expression>
    ensures { instead result (joined disjunction left.new right.new) ≡ joined either_of left.old right.old }
{
    match (literal_value(&left.node), literal_value(&right.node)) {
        (Truth::Yes, _) | (_, Truth::Yes) => Some(Expression::Literal(Literal::Bool(true))),
        (Truth::No, Truth::No) => Some(Expression::Literal(Literal::Bool(false))),
        (Truth::No, Truth::Undecided) => Some(taken(right)),
        (Truth::Undecided, Truth::No) => Some(taken(left)),
        (Truth::Undecided, Truth::Undecided) => None,
    }
}

/// What takes the place of a name, if anything does: the literal that is known of its flag.
fn answered(ty: &TypeExpression, names: &Names, features: &Features) -> Option<Expression>
    ensures { instead result (name_form ty.now) ≡ residual (answers names.now features.now) (name_form ty.now) }
{
    if ty.template_args.is_some() {
        return None;
    }
    match features.answer(name_of(names, ty.ident)) {
        Feature::Enable => Some(Expression::Literal(Literal::Bool(true))),
        Feature::Disable => Some(Expression::Literal(Literal::Bool(false))),
        Feature::Keep | Feature::Error => None,
    }
}

/// Leaves what is left of a formula under the features. Operands move within it, so no memory is taken.
pub fn simplify(formula: &mut Expression, names: &Names, features: &Features)
    ensures { expression_view formula.new ≡ written (residual (answers names.now features.now) (form_of formula.old)) }
{
    leave(formula, names, features);
}

#[cycle(simplifying)]
fn leave(formula: &mut Expression, names: &Names, features: &Features)
    ensures { form_of formula.new ≡ residual (answers names.now features.now) (form_of formula.old) }
{
    leave_operands(formula, names, features);
    if let Some(instead) = instead_of(formula, names, features) {
        *formula = instead;
    }
}

/// Leaves what is left of the operands of a formula.
#[cycle(simplifying)]
fn leave_operands(formula: &mut Expression, names: &Names, features: &Features)
    ensures { form_of formula.new ≡ operands_left (answers names.now features.now) (form_of formula.old) }
{
    match formula {
        Expression::Parenthesized { expression } => leave(&mut expression.node, names, features),
        Expression::Unary {
            operator: UnaryOperator::LogicalNegation,
            operand,
        } => leave(&mut operand.node, names, features),
        Expression::Binary {
            operator: BinaryOperator::ShortCircuitAnd | BinaryOperator::ShortCircuitOr,
            left,
            right,
        } => {
            leave(&mut left.node, names, features);
            leave(&mut right.node, names, features);
        }
        Expression::Literal(_)
        | Expression::NamedComponent { .. }
        | Expression::Indexing { .. }
        | Expression::Unary { .. }
        | Expression::Binary { .. }
        | Expression::FunctionCall(_)
        | Expression::TypeOrIdentifier(_) => {}
    }
}

/// What takes the place of a formula of whose operands nothing more goes, if anything does.
fn instead_of(formula: &mut Expression, names: &Names, features: &Features) -> Option<Expression>
    ensures { instead result (form_of formula.new) ≡ step (answers names.now features.now) (form_of formula.old) }
{
    match formula {
        Expression::Parenthesized { expression } => unwrapped(expression),
        Expression::Unary {
            operator: UnaryOperator::LogicalNegation,
            operand,
        } => negated(operand),
        Expression::Binary {
            operator: BinaryOperator::ShortCircuitAnd,
            left,
            right,
        } => both(left, right),
        Expression::Binary {
            operator: BinaryOperator::ShortCircuitOr,
            left,
            right,
        } => either(left, right),
        Expression::TypeOrIdentifier(ty) => answered(ty, names, features),
        Expression::Literal(_)
        | Expression::NamedComponent { .. }
        | Expression::Indexing { .. }
        | Expression::Unary { .. }
        | Expression::Binary { .. }
        | Expression::FunctionCall(_) => None,
    }
}

/// Whether the features decide a formula, and how.
#[tactic(auto, using(crate::proofs::Steps::decides))]
pub fn decided(formula: &Expression, names: &Names, features: &Features) -> Truth
    ensures { result ≡ decided (answers names.now features.now) (form_of formula.now) }
{
    match formula {
        Expression::Literal(Literal::Bool(true)) => Truth::Yes,
        Expression::Literal(Literal::Bool(false)) => Truth::No,
        Expression::Literal(Literal::Text(_)) => Truth::Undecided,
        Expression::Parenthesized { expression } => decided(&expression.node, names, features),
        Expression::NamedComponent { .. } | Expression::Indexing { .. } => Truth::Undecided,
        Expression::Unary { operator, operand } => match operator {
            UnaryOperator::LogicalNegation => decided(&operand.node, names, features).negated(),
            UnaryOperator::Negation
            | UnaryOperator::BitwiseComplement
            | UnaryOperator::AddressOf
            | UnaryOperator::Indirection => Truth::Undecided,
        },
        Expression::Binary {
            operator,
            left,
            right,
        } => match operator {
            BinaryOperator::ShortCircuitAnd => {
                let left = decided(&left.node, names, features);
                left.and(decided(&right.node, names, features))
            }
            BinaryOperator::ShortCircuitOr => {
                let left = decided(&left.node, names, features);
                left.or(decided(&right.node, names, features))
            }
            _ => Truth::Undecided,
        },
        Expression::FunctionCall(_) => Truth::Undecided,
        Expression::TypeOrIdentifier(ty) => match &ty.template_args {
            None => features.answer(name_of(names, ty.ident)).says(),
            Some(_) => Truth::Undecided,
        },
    }
}
