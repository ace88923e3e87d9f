//! The identifiers of expressions and types.
ghost use Rattle.wesl_tree_syntax.specs.Tree.{list};
ghost use Rattle.wesl_tree_syntax.specs.View.{argument_view, call_view, expression_tree, expression_view, listed, optional, type_view};
ghost use Rattle.wesl_cond_alive.specs.Views.{spot_view};
ghost use Rattle.wesl_cond_alive.specs.Noted.{Leaves};

use crate::walk::{Here, Walk};
use wesl_tree_syntax::{Expression, ExpressionNode, FunctionCall, TemplateArg, TypeExpression};

impl<'a> Walk<'a> {
    #[cycle(expressions)]
    pub fn expression(&mut self, here: &Here, expression: &'a Expression)
        ensures { Leaves (spot_view here.now) self.old self.new (expression_view expression.now) }
    {
        match expression {
            Expression::Literal(_) => {}
            Expression::Parenthesized { expression } => self.node(here, expression),
            Expression::NamedComponent { base, component: _ } => self.node(here, base),
            Expression::Indexing { base, index } => {
                self.node(here, base);
                self.node(here, index);
            }
            Expression::Unary {
                operator: _,
                operand,
            } => self.node(here, operand),
            Expression::Binary {
                operator: _,
                left,
                right,
            } => {
                self.node(here, left);
                self.node(here, right);
            }
            Expression::FunctionCall(call) => self.call(here, call),
            Expression::TypeOrIdentifier(ty) => self.type_expression(here, ty),
        }
    }

    #[cycle(expressions)]
    pub fn node(&mut self, here: &Here, node: &'a ExpressionNode)
        ensures { Leaves (spot_view here.now) self.old self.new (expression_tree node.now) }
    {
        self.expression(here, &node.node)
    }

    #[cycle(expressions)]
    pub fn nodes(&mut self, here: &Here, nodes: &'a Vec<ExpressionNode>)
        ensures { Leaves (spot_view here.now) self.old self.new (listed expression_tree list nodes.now) }
    {
        for node in nodes {
            self.expression(here, &node.node);
        }
    }

    #[cycle(expressions)]
    pub fn call(&mut self, here: &Here, call: &'a FunctionCall)
        ensures { Leaves (spot_view here.now) self.old self.new (call_view call.now) }
    {
        self.type_expression(here, &call.ty);
        self.nodes(here, &call.arguments);
    }

    #[cycle(expressions)]
    pub fn type_expression(&mut self, here: &Here, ty: &'a TypeExpression)
        ensures { Leaves (spot_view here.now) self.old self.new (type_view ty.now) }
    {
        self.add(here, ty.ident);
        match &ty.template_args {
            None => {}
            Some(arguments) => self.arguments(here, arguments),
        }
    }

    #[cycle(expressions)]
    fn arguments(&mut self, here: &Here, arguments: &'a Vec<TemplateArg>)
        ensures { Leaves (spot_view here.now) self.old self.new (listed argument_view list arguments.now) }
    {
        for argument in arguments {
            self.node(here, &argument.expression);
        }
    }

    pub fn optional_node(&mut self, here: &Here, node: &'a Option<ExpressionNode>)
        ensures { Leaves (spot_view here.now) self.old self.new (optional expression_tree node.now) }
    {
        match node {
            None => {}
            Some(node) => self.node(here, node),
        }
    }

    pub fn optional_type(&mut self, here: &Here, ty: &'a Option<TypeExpression>)
        ensures { Leaves (spot_view here.now) self.old self.new (optional type_view ty.now) }
    {
        match ty {
            None => {}
            Some(ty) => self.type_expression(here, ty),
        }
    }

    pub fn optional_nodes(&mut self, here: &Here, nodes: &'a Option<Vec<ExpressionNode>>)
        ensures { Leaves (spot_view here.now) self.old self.new (optional (listed expression_tree list) nodes.now) }
    {
        match nodes {
            None => {}
            Some(nodes) => self.nodes(here, nodes),
        }
    }
}
