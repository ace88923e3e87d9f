//! Expressions.
ghost use Rattle.std.specs.Prelude.{◌≡◌};
ghost use Rattle.wesl_tree_syntax.specs.Tree.{list};
ghost use Rattle.wesl_tree_syntax.specs.View.{expression_view, type_view, argument_view, call_view, expression_tree, literal_tree, listed, optional};

use crate::tables::Tables;
use wesl_tree_syntax::{
    Expression, ExpressionNode, FunctionCall, Literal, TemplateArg, TypeExpression,
};

impl Tables<'_> {
    ghost use Rattle.wesl_tree_spelling.specs.Tables.{same_in};

    fn same_literal(&self, left: &Literal, right: &Literal) -> bool
        ensures { result ≡ same_in self.now (literal_tree left.now) (literal_tree right.now) }
    {
        match (left, right) {
            (Literal::Bool(left), Literal::Bool(right)) => *left == *right,
            (Literal::Text(left), Literal::Text(right)) => *left == *right,
            _ => false,
        }
    }

    #[cycle(expression)]
    #[tactic(auto, using(crate::proofs::UnlikeExpressions::unlike))]
    fn same_expression(&self, left: &Expression, right: &Expression) -> bool
        ensures { result ≡ same_in self.now (expression_view left.now) (expression_view right.now) }
    {
        match (left, right) {
            (Expression::Literal(left), Expression::Literal(right)) => {
                self.same_literal(left, right)
            }
            (
                Expression::Parenthesized { expression: left },
                Expression::Parenthesized { expression: right },
            ) => self.same_node(left, right),
            (
                Expression::NamedComponent {
                    base: left,
                    component: left_name,
                },
                Expression::NamedComponent {
                    base: right,
                    component: right_name,
                },
            ) => self.same_node(left, right) && *left_name == *right_name,
            (
                Expression::Indexing {
                    base: left,
                    index: left_index,
                },
                Expression::Indexing {
                    base: right,
                    index: right_index,
                },
            ) => self.same_node(left, right) && self.same_node(left_index, right_index),
            (
                Expression::Unary {
                    operator: left_operator,
                    operand: left,
                },
                Expression::Unary {
                    operator: right_operator,
                    operand: right,
                },
            ) => *left_operator == *right_operator && self.same_node(left, right),
            (
                Expression::Binary {
                    operator: left_operator,
                    left: left_first,
                    right: left_second,
                },
                Expression::Binary {
                    operator: right_operator,
                    left: right_first,
                    right: right_second,
                },
            ) => {
                *left_operator == *right_operator
                    && (self.same_node(left_first, right_first)
                        && self.same_node(left_second, right_second))
            }
            (Expression::FunctionCall(left), Expression::FunctionCall(right)) => {
                self.same_call(left, right)
            }
            (Expression::TypeOrIdentifier(left), Expression::TypeOrIdentifier(right)) => {
                self.same_type(left, right)
            }
            _ => false,
        }
    }

    #[cycle(expression)]
    #[tactic(auto, using(crate::proofs::Bools::steps))]
    pub(crate) fn same_node(&self, left: &ExpressionNode, right: &ExpressionNode) -> bool
        ensures { result ≡ same_in self.now (expression_tree left.now) (expression_tree right.now) }
    {
        self.same_span(left.span, right.span) && self.same_expression(&left.node, &right.node)
    }

    #[cycle(expression)]
    pub(crate) fn same_nodes(&self, left: &Vec<ExpressionNode>, right: &Vec<ExpressionNode>) -> bool
        ensures { result ≡ same_in self.now (listed expression_tree list left.now) (listed expression_tree list right.now) }
    {
        if left.len() != right.len() {
            return false;
        }
        for i in 0..left.len() {
            if !self.same_node(&left[i], &right[i]) {
                return false;
            }
        }
        true
    }

    #[cycle(expression)]
    #[tactic(auto, using(crate::proofs::Bools::steps, wesl_tree_syntax::proofs::Views::view_call))]
    pub(crate) fn same_call(&self, left: &FunctionCall, right: &FunctionCall) -> bool
        ensures { result ≡ same_in self.now (call_view left.now) (call_view right.now) }
    {
        self.same_type(&left.ty, &right.ty) && self.same_nodes(&left.arguments, &right.arguments)
    }

    #[cycle(expression)]
    #[tactic(auto, using(crate::proofs::Bools::steps))]
    pub(crate) fn same_type(&self, left: &TypeExpression, right: &TypeExpression) -> bool
        ensures { result ≡ same_in self.now (type_view left.now) (type_view right.now) }
    {
        self.same_boxed_path(&left.path, &right.path)
            && (self.same_ident(left.ident, right.ident)
                && match (&left.template_args, &right.template_args) {
                    (None, None) => true,
                    (Some(left), Some(right)) => self.same_arguments(left, right),
                    _ => false,
                })
    }

    #[cycle(expression)]
    fn same_arguments(&self, left: &Vec<TemplateArg>, right: &Vec<TemplateArg>) -> bool
        ensures { result ≡ same_in self.now (listed argument_view list left.now) (listed argument_view list right.now) }
    {
        if left.len() != right.len() {
            return false;
        }
        for i in 0..left.len() {
            if !self.same_node(&left[i].expression, &right[i].expression) {
                return false;
            }
        }
        true
    }

    #[tactic(auto, using(crate::proofs::Bools::steps))]
    pub(crate) fn same_optional_node(
        &self,
        left: &Option<ExpressionNode>,
        right: &Option<ExpressionNode>,
    ) -> bool
        ensures { result ≡ same_in self.now (optional expression_tree left.now) (optional expression_tree right.now) }
    {
        match (left, right) {
            (None, None) => true,
            (Some(left), Some(right)) => self.same_node(left, right),
            _ => false,
        }
    }

    #[tactic(auto, using(crate::proofs::Bools::steps))]
    pub(crate) fn same_optional_type(
        &self,
        left: &Option<TypeExpression>,
        right: &Option<TypeExpression>,
    ) -> bool
        ensures { result ≡ same_in self.now (optional type_view left.now) (optional type_view right.now) }
    {
        match (left, right) {
            (None, None) => true,
            (Some(left), Some(right)) => self.same_type(left, right),
            _ => false,
        }
    }
}
