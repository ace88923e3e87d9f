//! The identifiers of attributes.
ghost use Rattle.wesl_tree_syntax.specs.View.{attribute_view, attributes_tree};
ghost use Rattle.wesl_cond_alive.specs.Views.{here_view, spot_view};
ghost use Rattle.wesl_cond_alive.specs.Noted.{Leaves, Walks};

use crate::walk::{Here, Walk};
use wesl_tree_syntax::{Attribute, AttributeNode};

impl<'a> Walk<'a> {
    fn attribute(&mut self, here: &Here, attribute: &'a Attribute)
        ensures { Leaves (spot_view here.now) self.old self.new (attribute_view attribute.now) }
    {
        match attribute {
            Attribute::Align(e)
            | Attribute::Binding(e)
            | Attribute::BlendSrc(e)
            | Attribute::Group(e)
            | Attribute::Id(e)
            | Attribute::Location(e)
            | Attribute::Size(e) => self.node(here, e),
            Attribute::If(e) | Attribute::Elif(e) => self.node(&here.in_formula(), e),
            Attribute::WorkgroupSize { x, y, z } => {
                self.node(here, x);
                self.optional_node(here, y);
                self.optional_node(here, z);
            }
            Attribute::Custom { name: _, arguments } => self.optional_nodes(here, arguments),
            Attribute::Builtin(_)
            | Attribute::Const
            | Attribute::Diagnostic { .. }
            | Attribute::Interpolate(_)
            | Attribute::Invariant
            | Attribute::MustUse
            | Attribute::Vertex
            | Attribute::Fragment
            | Attribute::Compute
            | Attribute::Publish
            | Attribute::Else => {}
        }
    }

    /// Those of attributes. Conditions that are gone stand nowhere.
    pub fn attributes(&mut self, here: &Here, attributes: &'a Vec<AttributeNode>)
        ensures { Walks (here_view here.now) self.old self.new (attributes_tree attributes.now) }
    {
        for attribute in attributes {
            let place = here.at_attribute(&attribute.node);
            self.attribute(&place, &attribute.node);
        }
    }
}
