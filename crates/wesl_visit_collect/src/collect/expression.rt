//! What is collected in expressions and types.
ghost use Rattle.wesl_tree_syntax.specs.Tree.{before, end, forest_of};
ghost use Rattle.std.specs.Prelude.{map};
ghost use Rattle.wesl_tree_syntax.specs.View.{argument_view, call_view, expression_tree, expression_view, type_view};
ghost use Rattle.wesl_visit_collect.specs.Adds.{Adds};

use crate::collected::Collected;
use crate::kinds::{Kind, NodeRef};
use wesl_tree_syntax::{Expression, ExpressionNode, FunctionCall, TemplateArg, TypeExpression};

/// Adds the nodes of a kind in an expression, in document order. Refused for want of memory alone.
#[cycle(collecting)]
pub fn in_expression<'a, T: Kind>(expression: &'a Expression, found: &mut Collected<'a, T>)
    ensures { Adds T.sought T.view found.old (before (expression_view expression.now) end) found.new }
{
    match expression {
        Expression::Literal(_) => {}
        Expression::Parenthesized { expression } => at_expression(expression, found),
        Expression::NamedComponent { base, component: _ } => at_expression(base, found),
        Expression::Indexing { base, index } => {
            at_expression(base, found);
            at_expression(index, found);
        }
        Expression::Unary {
            operator: _,
            operand,
        } => at_expression(operand, found),
        Expression::Binary {
            operator: _,
            left,
            right,
        } => {
            at_expression(left, found);
            at_expression(right, found);
        }
        Expression::FunctionCall(call) => in_call(call, found),
        Expression::TypeOrIdentifier(ty) => at_type(ty, found),
    }
}

#[cycle(collecting)]
pub(crate) fn at_expression<'a, T: Kind>(node: &'a ExpressionNode, found: &mut Collected<'a, T>)
    ensures { Adds T.sought T.view found.old (before (expression_tree node.now) end) found.new }
{
    if found.enter(NodeRef::Expression(node)) {
        in_expression(&node.node, found);
    }
}

#[cycle(collecting)]
pub(crate) fn at_expressions<'a, T: Kind>(
    expressions: &'a Vec<ExpressionNode>,
    found: &mut Collected<'a, T>,
)
    ensures { Adds T.sought T.view found.old (forest_of (map expression_tree expressions.now.items)) found.new }
{
    for node in expressions {
        if !found.enter(NodeRef::Expression(node)) {
            continue;
        }
        in_expression(&node.node, found);
    }
}

#[cycle(collecting)]
pub(crate) fn in_call<'a, T: Kind>(call: &'a FunctionCall, found: &mut Collected<'a, T>)
    ensures { Adds T.sought T.view found.old (before (call_view call.now) end) found.new }
{
    at_type(&call.ty, found);
    at_expressions(&call.arguments, found);
}

#[cycle(collecting)]
pub(crate) fn at_type<'a, T: Kind>(ty: &'a TypeExpression, found: &mut Collected<'a, T>)
    ensures { Adds T.sought T.view found.old (before (type_view ty.now) end) found.new }
{
    if found.enter(NodeRef::TypeExpression(ty)) {
        in_type(ty, found);
    }
}

/// Adds those strictly below a type.
#[cycle(collecting)]
pub fn in_type<'a, T: Kind>(ty: &'a TypeExpression, found: &mut Collected<'a, T>)
    ensures { Adds T.sought T.view found.old (type_view ty.now).children found.new }
{
    match &ty.template_args {
        None => {}
        Some(arguments) => in_arguments(arguments, found),
    }
}

#[cycle(collecting)]
fn in_arguments<'a, T: Kind>(arguments: &'a Vec<TemplateArg>, found: &mut Collected<'a, T>)
    ensures { Adds T.sought T.view found.old (forest_of (map argument_view arguments.now.items)) found.new }
{
    for argument in arguments {
        at_expression(&argument.expression, found);
    }
}
