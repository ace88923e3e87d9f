//! The identifiers of expressions and types.
ghost use Rattle.std.specs.Prelude.{◌∷◌, []};
ghost use Rattle.wesl_scope_occurrences.specs.Occurrences.{referring};
ghost use Rattle.wesl_tree_syntax.specs.Tree.{list};
ghost use Rattle.wesl_tree_syntax.specs.View.{expression_view, type_view, argument_view, call_view, expression_tree, listed};
ghost use Rattle.wesl_scope_occurrences.specs.Events.{meets};
ghost use Rattle.wesl_scope_occurrences.specs.Views.{here_view, leading_path};
ghost use Rattle.wesl_scope_occurrences.specs.Noted.{Walks, Steps};

use crate::handler::Handler;
use crate::here::Here;
use crate::walk::Walk;
use wesl_tree::{
    Expression, ExpressionNode, FunctionCall, Ident, ModulePath, TemplateArg, TypeExpression,
};

impl<'a, H: Handler> Walk<'a, H> {
    /// An expression, its operands from left to right.
    #[cycle(expressions)]
    pub fn expression(&mut self, here: &Here, expression: &'a Expression)
        ensures { Walks H.after (here_view here.now) self.old self.new (expression_view expression.now) }
    {
        match expression {
            Expression::Literal(_) => {}
            Expression::Parenthesized { expression } => self.node(here, expression),
            Expression::NamedComponent { base, component: _ } => self.node(here, base),
            Expression::Indexing { base, index } => {
                self.node(here, base);
                self.node(here, index);
            }
            Expression::Unary {
                operator: _,
                operand,
            } => self.node(here, operand),
            Expression::Binary {
                operator: _,
                left,
                right,
            } => {
                self.node(here, left);
                self.node(here, right);
            }
            Expression::FunctionCall(call) => self.call(here, call),
            Expression::TypeOrIdentifier(ty) => self.type_expression(here, ty),
        }
    }

    /// An expression with its place.
    #[cycle(expressions)]
    pub fn node(&mut self, here: &Here, node: &'a ExpressionNode)
        ensures { Walks H.after (here_view here.now) self.old self.new (expression_tree node.now) }
    {
        self.expression(here, &node.node)
    }

    /// Expressions, in order.
    #[cycle(expressions)]
    pub fn nodes(&mut self, here: &Here, nodes: &'a Vec<ExpressionNode>)
        ensures { Walks H.after (here_view here.now) self.old self.new (listed expression_tree list nodes.now) }
    {
        for node in nodes {
            self.expression(here, &node.node);
        }
    }

    /// A call: the name that is called, then its arguments.
    #[cycle(expressions)]
    #[tactic(auto, using(wesl_tree_syntax::proofs::Views::view_call))]
    pub fn call(&mut self, here: &Here, call: &'a FunctionCall)
        ensures { Walks H.after (here_view here.now) self.old self.new (call_view call.now) }
    {
        self.type_expression(here, &call.ty);
        self.nodes(here, &call.arguments);
    }

    /// A type or a name, then its template arguments.
    #[cycle(expressions)]
    pub fn type_expression(&mut self, here: &Here, ty: &'a TypeExpression)
        ensures { Walks H.after (here_view here.now) self.old self.new (type_view ty.now) }
    {
        self.reference(here, &ty.path, ty.ident);
        match &ty.template_args {
            None => {}
            Some(arguments) => self.arguments(here, arguments),
        }
    }

    /// Template arguments, in order.
    #[cycle(expressions)]
    pub fn arguments(&mut self, here: &Here, arguments: &'a Vec<TemplateArg>)
        ensures { Walks H.after (here_view here.now) self.old self.new (listed argument_view list arguments.now) }
    {
        for argument in arguments {
            self.node(here, &argument.expression);
        }
    }

    /// A reference, or a word where names are words.
    fn reference(&mut self, here: &Here, path: &'a Option<Box<ModulePath>>, ident: Ident)
        ensures { Steps H.after self.old self.new (meets (here_view here.now) (referring here.now.words (leading_path path.now)) ident.0 ∷ []) [] }
    {
        self.meet(here, here.referring(path), ident);
    }
}
