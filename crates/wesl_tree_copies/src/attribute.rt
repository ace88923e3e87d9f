//! Copies of attributes.
ghost use Rattle.wesl_tree_syntax.specs.Tree.{attribute_node};
ghost use Rattle.wesl_tree_syntax.specs.View.{attribute_view, attributes_tree, placed};
ghost use Rattle.wesl_tree_copies.specs.Copied.{Copies};

use crate::copying::Copying;
use wesl_tree_syntax::{Attribute, AttributeNode, Attributes, Spanned};

impl<'a> Copying<'a> {
    /// A copy of an attribute.
    pub fn attribute(&mut self, attribute: &Attribute) -> Attribute
        ensures { Copies self.old self.new attribute_view attribute.now result }
    {
        match attribute {
            Attribute::Align(operand) => Attribute::Align(self.node(operand)),
            Attribute::Binding(operand) => Attribute::Binding(self.node(operand)),
            Attribute::BlendSrc(operand) => Attribute::BlendSrc(self.node(operand)),
            Attribute::Builtin(name) => Attribute::Builtin(self.text(name)),
            Attribute::Const => Attribute::Const,
            Attribute::Diagnostic { severity, rule } => Attribute::Diagnostic {
                severity: self.text(severity),
                rule: self.text(rule),
            },
            Attribute::Group(operand) => Attribute::Group(self.node(operand)),
            Attribute::Id(operand) => Attribute::Id(self.node(operand)),
            Attribute::Interpolate(names) => Attribute::Interpolate(self.texts(names)),
            Attribute::Invariant => Attribute::Invariant,
            Attribute::Location(operand) => Attribute::Location(self.node(operand)),
            Attribute::MustUse => Attribute::MustUse,
            Attribute::Size(operand) => Attribute::Size(self.node(operand)),
            Attribute::WorkgroupSize { x, y, z } => Attribute::WorkgroupSize {
                x: self.node(x),
                y: self.optional_node(y),
                z: self.optional_node(z),
            },
            Attribute::Vertex => Attribute::Vertex,
            Attribute::Fragment => Attribute::Fragment,
            Attribute::Compute => Attribute::Compute,
            Attribute::Publish => Attribute::Publish,
            Attribute::If(operand) => Attribute::If(self.node(operand)),
            Attribute::Elif(operand) => Attribute::Elif(self.node(operand)),
            Attribute::Else => Attribute::Else,
            Attribute::Custom { name, arguments } => Attribute::Custom {
                name: self.text(name),
                arguments: self.optional_nodes(arguments),
            },
        }
    }

    /// A copy of an attribute.
    pub fn attribute_node(&mut self, node: &AttributeNode) -> AttributeNode
        ensures { Copies self.old self.new (placed attribute_view attribute_node) node.now result }
    {
        Spanned {
            node: self.attribute(&node.node),
            span: node.span,
        }
    }

    /// A copy of attributes.
    pub fn attributes(&mut self, attributes: &Attributes) -> Attributes
        ensures { Copies self.old self.new attributes_tree attributes.now result }
    {
        let mut copies = self.list(attributes.len());
        for attribute in attributes {
            let copy = self.attribute_node(attribute);
            self.push(&mut copies, copy);
        }
        copies
    }
}
