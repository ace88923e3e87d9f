//! How deep expressions stand in one another.
ghost use Rattle.std.specs.Prelude.{◌≡◌, nat_le, suc};
ghost use Rattle.wesl_tree_syntax.specs.Tree.{list};
ghost use Rattle.wesl_tree_syntax.specs.View.{argument_view, call_view, expression_tree, expression_view, listed, type_view};
ghost use Rattle.wesl_text_read.specs.Depth.{levels_in};

use wesl_tree_syntax::{Expression, ExpressionNode, FunctionCall, TemplateArg, TypeExpression};

/// Whether an expression has at most so many levels. It is not followed any deeper.
#[cycle(depth)]
#[tactic(auto, using(crate::proofs::Deep::steps))]
pub fn levels_are_within(expression: &ExpressionNode, most: usize) -> bool
    ensures { result ≡ nat_le (levels_in (expression_tree expression.now)) most }
{
    is_within(&expression.node, most)
}

// Whether it is one level, and what stands in it has at most as many as are left.
#[cycle(depth)]
#[tactic(auto, using(crate::proofs::Deep::steps))]
fn is_within(expression: &Expression, most: usize) -> bool
    ensures { result ≡ nat_le (suc (levels_in (expression_view expression.now))) most }
{
    if most == 0 {
        return false;
    }
    let less = most - 1;
    match expression {
        Expression::Literal(_) => true,
        Expression::Parenthesized { expression } => levels_are_within(expression, less),
        Expression::NamedComponent { base, component: _ } => levels_are_within(base, less),
        Expression::Indexing { base, index } => {
            levels_are_within(base, less) && levels_are_within(index, less)
        }
        Expression::Unary {
            operator: _,
            operand,
        } => levels_are_within(operand, less),
        Expression::Binary {
            operator: _,
            left,
            right,
        } => { levels_are_within(left, less) && levels_are_within(right, less) }
        Expression::FunctionCall(call) => call_is_within(call, less),
        Expression::TypeOrIdentifier(ty) => type_is_within(ty, less),
    }
}

// Whether a call has at most so many levels.
#[cycle(depth)]
#[tactic(auto, using(crate::proofs::Deep::calls))]
fn call_is_within(call: &FunctionCall, most: usize) -> bool
    ensures { result ≡ nat_le (levels_in (call_view call.now)) most }
{
    type_is_within(&call.ty, most) && expressions_are_within(&call.arguments, most)
}

// Whether each expression of a list has.
#[cycle(depth)]
fn expressions_are_within(expressions: &Vec<ExpressionNode>, most: usize) -> bool
    ensures { result ≡ nat_le (levels_in (listed expression_tree list expressions.now)) most }
{
    for expression in expressions {
        if !is_within(&expression.node, most) {
            return false;
        }
    }
    true
}

// Whether a type has.
#[cycle(depth)]
#[tactic(auto, using(crate::proofs::Deep::steps))]
fn type_is_within(ty: &TypeExpression, most: usize) -> bool
    ensures { result ≡ nat_le (levels_in (type_view ty.now)) most }
{
    match &ty.template_args {
        None => true,
        Some(arguments) => arguments_are_within(arguments, most),
    }
}

// Whether each template argument has.
#[cycle(depth)]
fn arguments_are_within(arguments: &Vec<TemplateArg>, most: usize) -> bool
    ensures { result ≡ nat_le (levels_in (listed argument_view list arguments.now)) most }
{
    for argument in arguments {
        if !levels_are_within(&argument.expression, most) {
            return false;
        }
    }
    true
}
