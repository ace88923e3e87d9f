//! Parentheses in expressions and types.
ghost use Rattle.std.specs.Prelude.{◌≡◌, Bool, Some, true};
ghost use Rattle.wesl_text_form.specs.Operators.{Class as FormClass, class_of as class_in, primary};
ghost use Rattle.wesl_text_guard.specs.Guards.{Fits, Guards, as_item, as_operand, as_option};
ghost use Rattle.wesl_tree_syntax.specs.Tree.{list};
ghost use Rattle.wesl_tree_syntax.specs.View.{argument_view, call_view, expression_tree, expression_view, listed, optional, type_view};

use crate::guard::Guard;
use crate::operand::{is_primary, is_tight, takes_left, takes_right};
use wesl_tree_syntax::{Expression, ExpressionNode, FunctionCall, TemplateArg, TypeExpression};

impl Guard {
    #[cycle(expressions)]
    fn expression(&mut self, expression: &mut Expression)
        ensures { Guards self.old self.new expression_view expression.old expression.new }
    {
        match expression {
            Expression::Literal(_) => {}
            Expression::Parenthesized { expression } => self.node(expression),
            Expression::NamedComponent { base, component: _ } => {
                let takes = is_primary(&base.node);
                self.operand(base, takes);
            }
            Expression::Indexing { base, index } => {
                let takes = is_primary(&base.node);
                self.operand(base, takes);
                self.item(index);
            }
            Expression::Unary {
                operator: _,
                operand,
            } => {
                let takes = is_tight(&operand.node);
                self.operand(operand, takes);
            }
            Expression::Binary {
                operator,
                left,
                right,
            } => {
                let takes = takes_left(*operator, &left.node);
                self.operand(left, takes);
                let takes = takes_right(*operator, &right.node);
                self.operand(right, takes);
            }
            Expression::FunctionCall(call) => self.call(call),
            Expression::TypeOrIdentifier(ty) => self.type_expression(ty),
        }
    }

    // An operand, where its operation takes it without parentheses or not.
    #[cycle(expressions)]
    fn operand(&mut self, node: &mut ExpressionNode, is_taken: bool)
        ensures { (takes : FormClass → Bool) → takes primary ≡ true
            → is_taken ≡ takes (class_in (Some (expression_view node.old.node).label))
            → Fits (as_operand takes) self.old self.new expression_tree node.old node.new }
    {
        let stands = self.stands(&node.node, is_taken);
        self.expression(&mut node.node);
        self.fit(node, stands);
    }

    // An item of a list, an index or a selector.
    #[cycle(expressions)]
    pub(crate) fn item(&mut self, node: &mut ExpressionNode)
        ensures { Fits as_item self.old self.new expression_tree node.old node.new }
    {
        self.operand(node, true);
    }

    #[cycle(expressions)]
    pub(crate) fn node(&mut self, node: &mut ExpressionNode)
        ensures { Guards self.old self.new expression_tree node.old node.new }
    {
        self.expression(&mut node.node);
    }

    #[cycle(expressions)]
    fn items(&mut self, nodes: &mut Vec<ExpressionNode>)
        ensures { Guards self.old self.new (listed expression_tree list) nodes.old nodes.new }
    {
        for node in nodes.iter_mut() {
            let stands = self.stands(&node.node, true);
            self.expression(&mut node.node);
            self.fit(node, stands);
        }
    }

    #[cycle(expressions)]
    pub(crate) fn call(&mut self, call: &mut FunctionCall)
        ensures { Guards self.old self.new call_view call.old call.new }
    {
        let FunctionCall { ty, arguments } = call;
        self.type_expression(ty);
        self.items(arguments);
    }

    #[cycle(expressions)]
    pub(crate) fn type_expression(&mut self, ty: &mut TypeExpression)
        ensures { Guards self.old self.new type_view ty.old ty.new }
    {
        match &mut ty.template_args {
            None => {}
            Some(arguments) => self.arguments(arguments),
        }
    }

    #[cycle(expressions)]
    fn arguments(&mut self, arguments: &mut Vec<TemplateArg>)
        ensures { Guards self.old self.new (listed argument_view list) arguments.old arguments.new }
    {
        for argument in arguments.iter_mut() {
            self.item(&mut argument.expression);
        }
    }

    pub(crate) fn optional_node(&mut self, node: &mut Option<ExpressionNode>)
        ensures { Guards self.old self.new (optional expression_tree) node.old node.new }
    {
        match node {
            None => {}
            Some(node) => self.node(node),
        }
    }

    pub(crate) fn optional_item(&mut self, node: &mut Option<ExpressionNode>)
        ensures { Fits as_option self.old self.new (optional expression_tree) node.old node.new }
    {
        match node {
            None => {}
            Some(node) => self.item(node),
        }
    }

    pub(crate) fn optional_type(&mut self, ty: &mut Option<TypeExpression>)
        ensures { Guards self.old self.new (optional type_view) ty.old ty.new }
    {
        match ty {
            None => {}
            Some(ty) => self.type_expression(ty),
        }
    }

    pub(crate) fn optional_items(&mut self, nodes: &mut Option<Vec<ExpressionNode>>)
        ensures { Guards self.old self.new (optional (listed expression_tree list)) nodes.old nodes.new }
    {
        match nodes {
            None => {}
            Some(nodes) => self.items(nodes),
        }
    }
}
