//! Whether every identifier of a tree lies inside a table.
ghost use Rattle.std.specs.Prelude.{◌≡◌};
ghost use Rattle.wesl_tree_syntax.specs.Tree.{tree_below, list};
ghost use Rattle.wesl_tree_syntax.specs.View.{expression_view, type_view, argument_view, call_view, expression_tree, listed};

use wesl_tree_syntax::{Expression, ExpressionNode, FunctionCall, TemplateArg, TypeExpression};

#[cycle(bounds)]
#[tactic(auto, using(crate::proofs::Below::steps))]
pub fn expression_is_below(bound: usize, expression: &Expression) -> bool
    ensures { result ≡ tree_below bound (expression_view expression.now) }
{
    match expression {
        Expression::Literal(_) => true,
        Expression::Parenthesized { expression } => node_is_below(bound, expression),
        Expression::NamedComponent { base, component: _ } => node_is_below(bound, base),
        Expression::Indexing { base, index } => {
            node_is_below(bound, base) && node_is_below(bound, index)
        }
        Expression::Unary {
            operator: _,
            operand,
        } => node_is_below(bound, operand),
        Expression::Binary {
            operator: _,
            left,
            right,
        } => { node_is_below(bound, left) && node_is_below(bound, right) }
        Expression::FunctionCall(call) => call_is_below(bound, call),
        Expression::TypeOrIdentifier(ty) => type_is_below(bound, ty),
    }
}

#[cycle(bounds)]
pub fn node_is_below(bound: usize, node: &ExpressionNode) -> bool
    ensures { result ≡ tree_below bound (expression_tree node.now) }
{
    expression_is_below(bound, &node.node)
}

#[cycle(bounds)]
pub fn nodes_are_below(bound: usize, nodes: &Vec<ExpressionNode>) -> bool
    ensures { result ≡ tree_below bound (listed expression_tree list nodes.now) }
{
    for node in nodes {
        if !expression_is_below(bound, &node.node) {
            return false;
        }
    }
    true
}

#[cycle(bounds)]
#[tactic(auto, using(crate::proofs::Below::and_true, wesl_tree_syntax::proofs::Views::view_call))]
pub fn call_is_below(bound: usize, call: &FunctionCall) -> bool
    ensures { result ≡ tree_below bound (call_view call.now) }
{
    type_is_below(bound, &call.ty) && nodes_are_below(bound, &call.arguments)
}

#[cycle(bounds)]
pub fn type_is_below(bound: usize, ty: &TypeExpression) -> bool
    ensures { result ≡ tree_below bound (type_view ty.now) }
{
    ty.ident.0 < bound
        && match &ty.template_args {
            None => true,
            Some(arguments) => arguments_are_below(bound, arguments),
        }
}

#[cycle(bounds)]
pub fn arguments_are_below(bound: usize, arguments: &Vec<TemplateArg>) -> bool
    ensures { result ≡ tree_below bound (listed argument_view list arguments.now) }
{
    for argument in arguments {
        if !node_is_below(bound, &argument.expression) {
            return false;
        }
    }
    true
}
