//! The choices under which a formula is true.
ghost use Rattle.std.specs.Prelude.{◌≡◌, ◌≤◌, ℕ, ◌&&◌, ◌||◌, not, IfOk, [], ◌∷◌, length};
ghost use Rattle.wesl_tree_base.specs.Borrowed.{texts};
ghost use Rattle.wesl_cond_chains.specs.Formulas.{form, value_under};
ghost use Rattle.wesl_cond_choices.specs.Choices.{has};
ghost use Rattle.wesl_tree_syntax.specs.Tree.{branch, type_or_identifier};
ghost use Rattle.wesl_tree_syntax.specs.View.{expression_view, type_view};
ghost use Rattle.wesl_cond_alive.specs.Choices.{IsSetOf, choice_by, choice_of};

use std::alloc::{AllocError, Global};
use wesl_cond_chains::name_of;
use wesl_cond_choices::choices::Choices;
use wesl_tree_names::Names;
use wesl_tree_syntax::{BinaryOperator, Expression, Literal, TypeExpression, UnaryOperator};

/// The choices under which the flag of this name is true; none where it is no flag.
fn name_set(alloc: Global, flags: &[&str], name: &str) -> Result<Choices, AllocError>
    requires few { length flags.now ≤ 16 }
    ensures over { IfOk result (λ c. c.flags ≡ length flags.now) }
    ensures set { IfOk result (λ c. IsSetOf (length flags.now) (λ k. choice_of (texts flags.now) k name.now) c) }
{
    for i in 0..flags.len() {
        if flags[i] == name {
            return Choices::of_flag(alloc, flags.len(), i);
        }
    }
    Choices::none(alloc, flags.len())
}

/// The choices under which a flag is true. With template arguments it is none.
fn flag_set(
    alloc: Global,
    names: &Names,
    flags: &[&str],
    ty: &TypeExpression,
) -> Result<Choices, AllocError>
    requires few { length flags.now ≤ 16 }
    ensures over { IfOk result (λ c. c.flags ≡ length flags.now) }
    ensures set { IfOk result (λ c. IsSetOf (length flags.now) (λ k. value_under (choice_by names.now (texts flags.now) k) (form (branch type_or_identifier (type_view ty.now ∷ [])))) c) }
{
    if ty.template_args.is_some() {
        return Choices::none(alloc, flags.len());
    }
    name_set(alloc, flags, name_of(names, ty.ident))
}

/// The choices of so many flags that a set has not.
fn others(alloc: Global, flags: usize, set: Choices) -> Result<Choices, AllocError>
    requires few { flags ≤ 16 }
    requires same { set.flags ≡ flags }
    ensures over { IfOk result (λ c. c.flags ≡ flags) }
    ensures others { IfOk result (λ c. IsSetOf flags (λ k. not (has set k)) c) }
{
    let mut others = Choices::all(alloc, flags)?;
    others.without(&set);
    Ok(others)
}

/// The choices that two sets share.
fn both(set: Choices, other: Choices) -> Choices
    requires { set.flags ≡ other.flags }
    ensures over { result.flags ≡ set.flags }
    ensures both { (k : ℕ) → has result k ≡ (has set k && has other k) }
{
    let mut set = set;
    set.and(&other);
    set
}

/// The choices that are in one of two sets.
fn either(set: Choices, other: Choices) -> Choices
    requires { set.flags ≡ other.flags }
    ensures over { result.flags ≡ set.flags }
    ensures either { (k : ℕ) → has result k ≡ (has set k || has other k) }
{
    let mut set = set;
    set.or(&other);
    set
}

/// The choices under which a formula is true; of what is no formula there are none. Refused for want of memory alone.
pub fn formula_set(
    alloc: Global,
    names: &Names,
    flags: &[&str],
    formula: &Expression,
) -> Result<Choices, AllocError>
    requires few { length flags.now ≤ 16 }
    ensures over { IfOk result (λ c. c.flags ≡ length flags.now) }
    ensures set { IfOk result (λ c. IsSetOf (length flags.now) (λ k. value_under (choice_by names.now (texts flags.now) k) (form (expression_view formula.now))) c) }
{
    match formula {
        Expression::Literal(Literal::Bool(true)) => Choices::all(alloc, flags.len()),
        Expression::Literal(Literal::Bool(false)) => Choices::none(alloc, flags.len()),
        Expression::Parenthesized { expression } => {
            formula_set(alloc, names, flags, &expression.node)
        }
        Expression::Unary {
            operator: UnaryOperator::LogicalNegation,
            operand,
        } => {
            let set = formula_set(alloc, names, flags, &operand.node)?;
            others(alloc, flags.len(), set)
        }
        Expression::Binary {
            operator: BinaryOperator::ShortCircuitAnd,
            left,
            right,
        } => {
            let set = formula_set(alloc, names, flags, &left.node)?;
            let other = formula_set(alloc, names, flags, &right.node)?;
            Ok(both(set, other))
        }
        Expression::Binary {
            operator: BinaryOperator::ShortCircuitOr,
            left,
            right,
        } => {
            let set = formula_set(alloc, names, flags, &left.node)?;
            let other = formula_set(alloc, names, flags, &right.node)?;
            Ok(either(set, other))
        }
        Expression::TypeOrIdentifier(ty) => flag_set(alloc, names, flags, ty),
        Expression::Literal(Literal::Text(_))
        | Expression::NamedComponent { .. }
        | Expression::Indexing { .. }
        | Expression::Unary { .. }
        | Expression::Binary { .. }
        | Expression::FunctionCall(_) => Choices::none(alloc, flags.len()),
    }
}
