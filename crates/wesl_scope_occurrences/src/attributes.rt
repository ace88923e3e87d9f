//! The identifiers of attributes and of optional parts.
ghost use Rattle.wesl_tree_syntax.specs.Tree.{list};
ghost use Rattle.wesl_tree_syntax.specs.View.{type_view, expression_tree, attribute_view, attributes_tree, listed, optional};
ghost use Rattle.wesl_scope_occurrences.specs.Views.{here_view};
ghost use Rattle.wesl_scope_occurrences.specs.Noted.{Walks};

use crate::handler::Handler;
use crate::here::Here;
use crate::walk::Walk;
use wesl_tree::{Attribute, AttributeNode, ExpressionNode, TypeExpression};

impl<'a, H: Handler> Walk<'a, H> {
    /// An expression, if there is one.
    pub fn optional_node(&mut self, here: &Here, node: &'a Option<ExpressionNode>)
        ensures { Walks H.after (here_view here.now) self.old self.new (optional expression_tree node.now) }
    {
        match node {
            None => {}
            Some(node) => self.node(here, node),
        }
    }

    /// A type, if there is one.
    pub fn optional_type(&mut self, here: &Here, ty: &'a Option<TypeExpression>)
        ensures { Walks H.after (here_view here.now) self.old self.new (optional type_view ty.now) }
    {
        match ty {
            None => {}
            Some(ty) => self.type_expression(here, ty),
        }
    }

    /// The arguments of a custom attribute, if it has any.
    pub fn optional_nodes(&mut self, here: &Here, nodes: &'a Option<Vec<ExpressionNode>>)
        ensures { Walks H.after (here_view here.now) self.old self.new (optional (listed expression_tree list) nodes.now) }
    {
        match nodes {
            None => {}
            Some(nodes) => self.nodes(here, nodes),
        }
    }

    /// An attribute: in a condition all names are words, and the arguments of a custom one are excused.
    fn attribute(&mut self, here: &Here, attribute: &'a Attribute)
        ensures { Walks H.after (here_view here.now) self.old self.new (attribute_view attribute.now) }
    {
        match attribute {
            Attribute::Align(e)
            | Attribute::Binding(e)
            | Attribute::BlendSrc(e)
            | Attribute::Group(e)
            | Attribute::Id(e)
            | Attribute::Location(e)
            | Attribute::Size(e) => self.node(here, e),
            Attribute::If(e) | Attribute::Elif(e) => self.node(&here.in_words(), e),
            Attribute::WorkgroupSize { x, y, z } => {
                self.node(here, x);
                self.optional_node(here, y);
                self.optional_node(here, z);
            }
            Attribute::Custom { name: _, arguments } => {
                let here = Here {
                    excused: true,
                    ..*here
                };
                self.optional_nodes(&here, arguments);
            }
            Attribute::Builtin(_)
            | Attribute::Const
            | Attribute::Diagnostic { .. }
            | Attribute::Interpolate(_)
            | Attribute::Invariant
            | Attribute::MustUse
            | Attribute::Vertex
            | Attribute::Fragment
            | Attribute::Compute
            | Attribute::Publish
            | Attribute::Else => {}
        }
    }

    /// The attributes of a node, in order.
    pub fn attributes(&mut self, here: &Here, attributes: &'a Vec<AttributeNode>)
        ensures { Walks H.after (here_view here.now) self.old self.new (attributes_tree attributes.now) }
    {
        for attribute in attributes {
            self.attribute(here, &attribute.node);
        }
    }
}
