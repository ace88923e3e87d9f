//! What is replaced in expressions and types.
ghost use Rattle.wesl_tree_syntax.specs.View.{argument_view, call_view, expression_tree, expression_view, type_view};
ghost use Rattle.wesl_visit_rewrite.specs.Replaced.{rule};
ghost use Rattle.wesl_visit_rewrite.specs.Went.{AllWent, Went, WentTo};

use wesl_tree_syntax::{Expression, ExpressionNode, FunctionCall, TemplateArg, TypeExpression};
use wesl_visit_collect::{Replace, Rewrite};

#[cycle(replacing)]
pub(crate) fn in_expression<T: Replace, R: Rewrite<T>>(
    expression: &mut Expression,
    deep: bool,
    rewriter: &mut R,
    goes: bool,
) -> bool
    ensures { WentTo (rule T.Kind.sought R.rewrites deep) expression_view goes expression.old result expression.new }
{
    match expression {
        Expression::Literal(_) => goes,
        Expression::Parenthesized { expression } => {
            at_expression(expression, deep, rewriter, goes)
        }
        Expression::NamedComponent { base, component: _ } => {
            at_expression(base, deep, rewriter, goes)
        }
        Expression::Indexing { base, index } => {
            let goes = at_expression(base, deep, rewriter, goes);
            at_expression(index, deep, rewriter, goes)
        }
        Expression::Unary {
            operator: _,
            operand,
        } => at_expression(operand, deep, rewriter, goes),
        Expression::Binary {
            operator: _,
            left,
            right,
        } => {
            let goes = at_expression(left, deep, rewriter, goes);
            at_expression(right, deep, rewriter, goes)
        }
        Expression::FunctionCall(call) => in_call(call, deep, rewriter, goes),
        Expression::TypeOrIdentifier(ty) => at_type(ty, deep, rewriter, goes),
    }
}

#[cycle(replacing)]
pub(crate) fn at_expression<T: Replace, R: Rewrite<T>>(
    node: &mut ExpressionNode,
    deep: bool,
    rewriter: &mut R,
    goes: bool,
) -> bool
    ensures { WentTo (rule T.Kind.sought R.rewrites deep) expression_tree goes node.old result node.new }
{
    if T::takes_whole_expressions(deep) {
        T::finish_expression(node, rewriter, goes)
    } else {
        let goes = in_expression(&mut node.node, deep, rewriter, goes);
        T::finish_expression(node, rewriter, goes)
    }
}

#[cycle(replacing)]
pub(crate) fn at_expressions<T: Replace, R: Rewrite<T>>(
    nodes: &mut [ExpressionNode],
    deep: bool,
    rewriter: &mut R,
    goes: bool,
) -> bool
    ensures { AllWent (rule T.Kind.sought R.rewrites deep) expression_tree goes nodes.old result nodes.new }
{
    let mut goes = goes;
    for i in 0..nodes.len() {
        let node = &mut nodes[i];
        if T::takes_whole_expressions(deep) {
            goes = T::finish_expression(node, rewriter, goes);
            continue;
        }
        goes = in_expression(&mut node.node, deep, rewriter, goes);
        goes = T::finish_expression(node, rewriter, goes);
    }
    goes
}

#[cycle(replacing)]
pub(crate) fn in_call<T: Replace, R: Rewrite<T>>(
    call: &mut FunctionCall,
    deep: bool,
    rewriter: &mut R,
    goes: bool,
) -> bool
    ensures { WentTo (rule T.Kind.sought R.rewrites deep) call_view goes call.old result call.new }
{
    let FunctionCall { ty, arguments } = call;
    let goes = at_type(ty, deep, rewriter, goes);
    at_expressions(arguments, deep, rewriter, goes)
}

#[cycle(replacing)]
pub(crate) fn at_type<T: Replace, R: Rewrite<T>>(
    ty: &mut TypeExpression,
    deep: bool,
    rewriter: &mut R,
    goes: bool,
) -> bool
    ensures { WentTo (rule T.Kind.sought R.rewrites deep) type_view goes ty.old result ty.new }
{
    if T::takes_whole_types(deep) {
        T::finish_type(ty, rewriter, goes)
    } else {
        let goes = in_type(ty, deep, rewriter, goes);
        T::finish_type(ty, rewriter, goes)
    }
}

#[cycle(replacing)]
pub(crate) fn in_type<T: Replace, R: Rewrite<T>>(
    ty: &mut TypeExpression,
    deep: bool,
    rewriter: &mut R,
    goes: bool,
) -> bool
    ensures { Went (rule T.Kind.sought R.rewrites deep) goes ((type_view ty.old).children) result ((type_view ty.new).children) }
{
    match &mut ty.template_args {
        None => goes,
        Some(arguments) => in_arguments(arguments, deep, rewriter, goes),
    }
}

#[cycle(replacing)]
fn in_arguments<T: Replace, R: Rewrite<T>>(
    arguments: &mut [TemplateArg],
    deep: bool,
    rewriter: &mut R,
    goes: bool,
) -> bool
    ensures { AllWent (rule T.Kind.sought R.rewrites deep) argument_view goes arguments.old result arguments.new }
{
    let mut goes = goes;
    for i in 0..arguments.len() {
        goes = at_expression(&mut arguments[i].expression, deep, rewriter, goes);
    }
    goes
}
