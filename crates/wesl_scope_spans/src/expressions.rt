//! The spans of the identifiers of expressions and types.
ghost use Rattle.wesl_tree_syntax.specs.Tree.{list};
ghost use Rattle.wesl_tree_syntax.specs.View.{argument_view, call_view, expression_tree, expression_view, listed, optional, type_view};
ghost use Rattle.wesl_scope_spans.specs.Adds.{Adds, AddsAnywhere};

use crate::places::Places;
use wesl_tree::{Expression, ExpressionNode, FunctionCall, Span, TemplateArg, TypeExpression};

/// Those of an expression, its operands from left to right.
#[cycle(expressions)]
fn in_expression(expression: &Expression, round: Span, places: &mut Places)
    ensures { Adds round places.old (expression_view expression.now) places.new }
{
    match expression {
        Expression::Literal(_) => {}
        Expression::Parenthesized { expression } => in_node(expression, places),
        Expression::NamedComponent { base, component: _ } => in_node(base, places),
        Expression::Indexing { base, index } => {
            in_node(base, places);
            in_node(index, places);
        }
        Expression::Unary {
            operator: _,
            operand,
        } => in_node(operand, places),
        Expression::Binary {
            operator: _,
            left,
            right,
        } => {
            in_node(left, places);
            in_node(right, places);
        }
        Expression::FunctionCall(call) => in_call(call, round, places),
        Expression::TypeOrIdentifier(ty) => in_type(ty, round, places),
    }
}

/// Those of an expression with its span.
#[cycle(expressions)]
pub fn in_node(node: &ExpressionNode, places: &mut Places)
    ensures { AddsAnywhere places.old (expression_tree node.now) places.new }
{
    in_expression(&node.node, node.span, places);
}

/// Those of expressions, in order.
#[cycle(expressions)]
pub fn in_nodes(nodes: &Vec<ExpressionNode>, places: &mut Places)
    ensures { AddsAnywhere places.old (listed expression_tree list nodes.now) places.new }
{
    for node in nodes {
        in_expression(&node.node, node.span, places);
    }
}

/// Those of a call: the name that is called, then those of its arguments.
#[cycle(expressions)]
pub fn in_call(call: &FunctionCall, round: Span, places: &mut Places)
    ensures { Adds round places.old (call_view call.now) places.new }
{
    in_type(&call.ty, round, places);
    in_nodes(&call.arguments, places);
}

/// Those of a type: its name, then those of its template arguments.
#[cycle(expressions)]
pub fn in_type(ty: &TypeExpression, round: Span, places: &mut Places)
    ensures { Adds round places.old (type_view ty.now) places.new }
{
    places.meet(round);
    match &ty.template_args {
        None => {}
        Some(arguments) => in_arguments(arguments, places),
    }
}

/// Those of template arguments, in order.
#[cycle(expressions)]
fn in_arguments(arguments: &Vec<TemplateArg>, places: &mut Places)
    ensures { AddsAnywhere places.old (listed argument_view list arguments.now) places.new }
{
    for argument in arguments {
        in_node(&argument.expression, places);
    }
}

/// Those of an expression, if there is one.
pub fn in_optional_node(node: &Option<ExpressionNode>, places: &mut Places)
    ensures { AddsAnywhere places.old (optional expression_tree node.now) places.new }
{
    match node {
        None => {}
        Some(node) => in_node(node, places),
    }
}

/// Those of a type, if there is one.
pub fn in_optional_type(ty: &Option<TypeExpression>, round: Span, places: &mut Places)
    ensures { Adds round places.old (optional type_view ty.now) places.new }
{
    match ty {
        None => {}
        Some(ty) => in_type(ty, round, places),
    }
}
