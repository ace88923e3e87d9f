//! Copies of expressions and types.
ghost use Rattle.wesl_tree_syntax.specs.Tree.{expression_node};
ghost use Rattle.wesl_tree_syntax.specs.View.{argument_view, call_view, expression_view, literal_tree, type_view};

use crate::clones::{Node, Placed};
use crate::copying::Copying;
use wesl_tree_syntax::{Expression, FunctionCall, Literal, TemplateArg, TypeExpression};

impl Node for Literal {
    ghost tree = { literal_tree };

    fn copied(&self, copying: &mut Copying<'_>) -> Literal {
        copying.literal(self)
    }
}

impl Node for Expression {
    ghost tree = { expression_view };

    fn copied(&self, copying: &mut Copying<'_>) -> Expression {
        copying.expression(self)
    }
}

impl Placed for Expression {
    ghost place = { expression_node };
}

impl Node for FunctionCall {
    ghost tree = { call_view };

    fn copied(&self, copying: &mut Copying<'_>) -> FunctionCall {
        copying.call(self)
    }
}

impl Node for TypeExpression {
    ghost tree = { type_view };

    fn copied(&self, copying: &mut Copying<'_>) -> TypeExpression {
        copying.type_expression(self)
    }
}

impl Node for TemplateArg {
    ghost tree = { argument_view };

    fn copied(&self, copying: &mut Copying<'_>) -> TemplateArg {
        copying.argument(self)
    }
}
