//! Copies of expressions and types.
ghost use Rattle.std.specs.Prelude.{◌≡◌, true, IfNone, IfSome};
ghost use Rattle.std.specs.Box.{box_value};
ghost use Rattle.wesl_tree_syntax.specs.Tree.{list};
ghost use Rattle.wesl_tree_syntax.specs.View.{argument_view, call_view, expression_tree, expression_view, listed, optional, type_view};
ghost use Rattle.wesl_tree_copies.specs.Copied.{Copies};

use crate::copying::Copying;
use wesl_tree_syntax::{
    Expression, ExpressionNode, FunctionCall, Literal, Spanned, TemplateArg, TypeExpression,
};

/// What stands for an expression for which memory was wanting.
fn wanting() -> Expression {
    Expression::Literal(Literal::Bool(false))
}

impl<'a> Copying<'a> {
    /// A copy of an expression.
    #[cycle(expressions)]
    pub fn expression(&mut self, expression: &Expression) -> Expression
        ensures { Copies self.old self.new expression_view expression.now result }
    {
        match expression {
            Expression::Literal(literal) => Expression::Literal(self.literal(literal)),
            Expression::Parenthesized { expression } => match self.boxed(expression) {
                Some(expression) => Expression::Parenthesized { expression },
                None => wanting(),
            },
            Expression::NamedComponent { base, component } => match self.boxed(base) {
                Some(base) => Expression::NamedComponent {
                    base,
                    component: self.text(component),
                },
                None => wanting(),
            },
            Expression::Indexing { base, index } => {
                match (self.boxed(base), self.boxed(index)) {
                    (Some(base), Some(index)) => Expression::Indexing { base, index },
                    (_base, _index) => wanting(),
                }
            }
            Expression::Unary { operator, operand } => match self.boxed(operand) {
                Some(operand) => Expression::Unary {
                    operator: *operator,
                    operand,
                },
                None => wanting(),
            },
            Expression::Binary {
                operator,
                left,
                right,
            } => match (self.boxed(left), self.boxed(right)) {
                (Some(left), Some(right)) => Expression::Binary {
                    operator: *operator,
                    left,
                    right,
                },
                (_left, _right) => wanting(),
            },
            Expression::FunctionCall(call) => Expression::FunctionCall(self.call(call)),
            Expression::TypeOrIdentifier(ty) => {
                Expression::TypeOrIdentifier(self.type_expression(ty))
            }
        }
    }

    /// A copy of an expression in a box, unless memory was wanting.
    #[cycle(expressions)]
    fn boxed(&mut self, node: &ExpressionNode) -> Option<Box<ExpressionNode>>
        ensures copied { IfSome result (λ copy. Copies self.old self.new expression_tree node.now (box_value copy)) }
        ensures noted { IfNone result (self.new.is_refused ≡ true) }
    {
        let copy = self.node(node);
        self.made(Box::new(self.alloc, copy))
    }

    /// A copy of an expression.
    #[cycle(expressions)]
    pub fn node(&mut self, node: &ExpressionNode) -> ExpressionNode
        ensures { Copies self.old self.new expression_tree node.now result }
    {
        Spanned {
            node: self.expression(&node.node),
            span: node.span,
        }
    }

    /// A copy of expressions.
    #[cycle(expressions)]
    pub fn nodes(&mut self, nodes: &Vec<ExpressionNode>) -> Vec<ExpressionNode>
        ensures { Copies self.old self.new (listed expression_tree list) nodes.now result }
    {
        let mut copies = self.list(nodes.len());
        for node in nodes {
            let copy = Spanned {
                node: self.expression(&node.node),
                span: node.span,
            };
            self.push(&mut copies, copy);
        }
        copies
    }

    /// A copy of a call.
    #[cycle(expressions)]
    pub fn call(&mut self, call: &FunctionCall) -> FunctionCall
        ensures { Copies self.old self.new call_view call.now result }
    {
        FunctionCall {
            ty: self.type_expression(&call.ty),
            arguments: self.nodes(&call.arguments),
        }
    }

    /// A copy of a type or a name.
    #[cycle(expressions)]
    pub fn type_expression(&mut self, ty: &TypeExpression) -> TypeExpression
        ensures { Copies self.old self.new type_view ty.now result }
    {
        TypeExpression {
            path: self.boxed_path(&ty.path),
            ident: self.number(ty.ident),
            template_args: match &ty.template_args {
                None => None,
                Some(arguments) => Some(self.arguments(arguments)),
            },
        }
    }

    /// A copy of a template argument.
    #[cycle(expressions)]
    pub fn argument(&mut self, argument: &TemplateArg) -> TemplateArg
        ensures { Copies self.old self.new argument_view argument.now result }
    {
        TemplateArg {
            expression: self.node(&argument.expression),
        }
    }

    #[cycle(expressions)]
    fn arguments(&mut self, arguments: &Vec<TemplateArg>) -> Vec<TemplateArg>
        ensures { Copies self.old self.new (listed argument_view list) arguments.now result }
    {
        let mut copies = self.list(arguments.len());
        for argument in arguments {
            let copy = self.argument(argument);
            self.push(&mut copies, copy);
        }
        copies
    }

    pub(crate) fn optional_node(&mut self, node: &Option<ExpressionNode>) -> Option<ExpressionNode>
        ensures { Copies self.old self.new (optional expression_tree) node.now result }
    {
        match node {
            None => None,
            Some(node) => Some(self.node(node)),
        }
    }

    pub(crate) fn optional_type(&mut self, ty: &Option<TypeExpression>) -> Option<TypeExpression>
        ensures { Copies self.old self.new (optional type_view) ty.now result }
    {
        match ty {
            None => None,
            Some(ty) => Some(self.type_expression(ty)),
        }
    }

    pub(crate) fn optional_nodes(
        &mut self,
        nodes: &Option<Vec<ExpressionNode>>,
    ) -> Option<Vec<ExpressionNode>>
        ensures { Copies self.old self.new (optional (listed expression_tree list)) nodes.now result }
    {
        match nodes {
            None => None,
            Some(nodes) => Some(self.nodes(nodes)),
        }
    }
}
