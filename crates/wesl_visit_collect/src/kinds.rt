//! The four kinds of node that visits look for.
ghost use Rattle.std.specs.Prelude.{◌≡◌, option_map};
ghost use Rattle.wesl_tree_syntax.specs.Tree.{Tree};
ghost use Rattle.wesl_tree_syntax.specs.View.{expression_tree, type_view, statement_tree, attributes_tree};
ghost use Rattle.wesl_visit_collect.specs.Nodes.{node_tree, picked};
ghost use Rattle.wesl_visit_collect.specs.Sought.{Sought, expressions, types, statements, attribute_lists};

use wesl_tree_syntax::{Attributes, ExpressionNode, StatementNode, TypeExpression};

/// A node of one of the four kinds.
#[derive(Clone, Copy)]
pub enum NodeRef<'a> {
    /// an expression
    Expression(&'a ExpressionNode),
    /// a type
    TypeExpression(&'a TypeExpression),
    /// a statement
    Statement(&'a StatementNode),
    /// the attributes of a node
    Attributes(&'a Attributes),
}

/// One of the four kinds of node that visits look for.
pub trait Kind {
    ghost sought: { Sought };

    ghost view: { Self → Tree };

    /// The node, where it is of this kind.
    fn pick<'a>(node: NodeRef<'a>) -> Option<&'a Self>
        ensures { option_map (λ found. view found.now) result ≡ picked sought (node_tree node.entry) };
}

impl Kind for ExpressionNode {
    ghost sought = { expressions };

    ghost view = { expression_tree };

    fn pick<'a>(node: NodeRef<'a>) -> Option<&'a ExpressionNode> {
        match node {
            NodeRef::Expression(expression) => Some(expression),
            NodeRef::TypeExpression(_) | NodeRef::Statement(_) | NodeRef::Attributes(_) => None,
        }
    }
}

impl Kind for TypeExpression {
    ghost sought = { types };

    ghost view = { type_view };

    fn pick<'a>(node: NodeRef<'a>) -> Option<&'a TypeExpression> {
        match node {
            NodeRef::TypeExpression(ty) => Some(ty),
            NodeRef::Expression(_) | NodeRef::Statement(_) | NodeRef::Attributes(_) => None,
        }
    }
}

impl Kind for StatementNode {
    ghost sought = { statements };

    ghost view = { statement_tree };

    fn pick<'a>(node: NodeRef<'a>) -> Option<&'a StatementNode> {
        match node {
            NodeRef::Statement(statement) => Some(statement),
            NodeRef::Expression(_) | NodeRef::TypeExpression(_) | NodeRef::Attributes(_) => None,
        }
    }
}

impl Kind for Attributes {
    ghost sought = { attribute_lists };

    ghost view = { attributes_tree };

    fn pick<'a>(node: NodeRef<'a>) -> Option<&'a Attributes> {
        match node {
            NodeRef::Attributes(attributes) => Some(attributes),
            NodeRef::Expression(_) => None,
            NodeRef::TypeExpression(_) => None,
            NodeRef::Statement(_) => None,
        }
    }
}
