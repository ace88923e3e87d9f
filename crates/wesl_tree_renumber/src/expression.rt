//! Numbers for the identifiers of expressions and types.
ghost use Rattle.wesl_tree_syntax.specs.Tree.{list};
ghost use Rattle.wesl_tree_syntax.specs.View.{argument_view, call_view, expression_tree, expression_view, listed, optional, type_view};
ghost use Rattle.wesl_tree_renumber.specs.Renumbers.{Renumbers};

use crate::renumbering::Renumbering;
use wesl_tree_syntax::{Expression, ExpressionNode, FunctionCall, TemplateArg, TypeExpression};

impl<'a> Renumbering<'a> {
    #[cycle(expressions)]
    fn expression(&mut self, expression: &mut Expression)
        ensures { Renumbers self.old self.new expression_view expression.old expression.new }
    {
        match expression {
            Expression::Literal(_) => {}
            Expression::Parenthesized { expression } => self.node(expression),
            Expression::NamedComponent { base, component: _ } => self.node(base),
            Expression::Indexing { base, index } => {
                self.node(base);
                self.node(index);
            }
            Expression::Unary {
                operator: _,
                operand,
            } => self.node(operand),
            Expression::Binary {
                operator: _,
                left,
                right,
            } => {
                self.node(left);
                self.node(right);
            }
            Expression::FunctionCall(call) => self.call(call),
            Expression::TypeOrIdentifier(ty) => self.type_expression(ty),
        }
    }

    #[cycle(expressions)]
    pub(crate) fn node(&mut self, node: &mut ExpressionNode)
        ensures { Renumbers self.old self.new expression_tree node.old node.new }
    {
        self.expression(&mut node.node);
    }

    #[cycle(expressions)]
    fn nodes(&mut self, nodes: &mut Vec<ExpressionNode>)
        ensures { Renumbers self.old self.new (listed expression_tree list) nodes.old nodes.new }
    {
        for node in nodes.iter_mut() {
            self.expression(&mut node.node);
        }
    }

    #[cycle(expressions)]
    pub(crate) fn call(&mut self, call: &mut FunctionCall)
        ensures { Renumbers self.old self.new call_view call.old call.new }
    {
        let FunctionCall { ty, arguments } = call;
        self.type_expression(ty);
        self.nodes(arguments);
    }

    #[cycle(expressions)]
    pub(crate) fn type_expression(&mut self, ty: &mut TypeExpression)
        ensures { Renumbers self.old self.new type_view ty.old ty.new }
    {
        let TypeExpression {
            path: _,
            ident,
            template_args,
        } = ty;
        self.ident(ident);
        match template_args {
            None => {}
            Some(arguments) => self.arguments(arguments),
        }
    }

    #[cycle(expressions)]
    fn arguments(&mut self, arguments: &mut Vec<TemplateArg>)
        ensures { Renumbers self.old self.new (listed argument_view list) arguments.old arguments.new }
    {
        for argument in arguments.iter_mut() {
            self.node(&mut argument.expression);
        }
    }

    pub(crate) fn optional_node(&mut self, node: &mut Option<ExpressionNode>)
        ensures { Renumbers self.old self.new (optional expression_tree) node.old node.new }
    {
        match node {
            None => {}
            Some(node) => self.node(node),
        }
    }

    pub(crate) fn optional_type(&mut self, ty: &mut Option<TypeExpression>)
        ensures { Renumbers self.old self.new (optional type_view) ty.old ty.new }
    {
        match ty {
            None => {}
            Some(ty) => self.type_expression(ty),
        }
    }

    pub(crate) fn optional_nodes(&mut self, nodes: &mut Option<Vec<ExpressionNode>>)
        ensures { Renumbers self.old self.new (optional (listed expression_tree list)) nodes.old nodes.new }
    {
        match nodes {
            None => {}
            Some(nodes) => self.nodes(nodes),
        }
    }
}
