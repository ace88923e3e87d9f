//! What is left of the formula of a conditional attribute.
ghost use Rattle.std.specs.Prelude.{◌≡◌, [], IfOk, IfErr};
ghost use Rattle.wesl_cond.specs.Formula.{RefusesFormula, faults_of_formula, left_of_formula};
ghost use Rattle.wesl_tree_syntax.specs.View.{expression_view};

use std::alloc::Global;
use wesl_cond_chains::{check_formula, simplify};
use wesl_cond_features::Features;
use wesl_tree_copies::Copying;
use wesl_tree_names::{Diagnostic, Names};
use wesl_tree_syntax::{Expression, ExpressionNode};

/// What the features leave of a formula over the names of this table (WESL, "ConditionalTranslation").
///
/// It is refused where a flag has template arguments or is answered by a refusal, and where an expression is none of
/// `true`, `false`, a flag, parentheses, `!`, `&&` and `||`, in any part of the formula; and for want of memory. The
/// diagnostic of a fault tells the span of the expression at fault, unless that is `0..0`, and neither a module nor a
/// declaration.
pub fn eval_attr(
    alloc: Global,
    names: &Names,
    expression: &ExpressionNode,
    features: &Features,
) -> Result<Expression, Diagnostic>
    ensures left { IfOk result (λ left. expression_view left ≡ left_of_formula names.now features.now expression.now) }
    ensures faultless { IfOk result (λ _. faults_of_formula names.now features.now expression.now ≡ []) }
    ensures refused { IfErr result (RefusesFormula names.now features.now expression.now) }
{
    check_formula(alloc, expression, names, features)?;
    let mut copying = Copying::of(alloc);
    let copy = copying.expression(&expression.node);
    let mut left = copying.end(copy)?;
    simplify(&mut left, names, features);
    Ok(left)
}
