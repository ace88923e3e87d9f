//! Parentheses in attributes.
ghost use Rattle.wesl_tree_syntax.specs.View.{attribute_view, attributes_tree};
ghost use Rattle.wesl_text_guard.specs.Guards.{Guards};

use crate::guard::Guard;
use wesl_tree_syntax::{Attribute, Attributes};

impl Guard {
    fn attribute(&mut self, attribute: &mut Attribute)
        ensures { Guards self.old self.new attribute_view attribute.old attribute.new }
    {
        match attribute {
            Attribute::Align(operand) => self.node(operand),
            Attribute::Binding(operand) => self.node(operand),
            Attribute::BlendSrc(operand) => self.node(operand),
            Attribute::Builtin(_) => {}
            Attribute::Const => {}
            Attribute::Diagnostic {
                severity: _,
                rule: _,
            } => {}
            Attribute::Group(operand) => self.node(operand),
            Attribute::Id(operand) => self.node(operand),
            Attribute::Interpolate(_) => {}
            Attribute::Invariant => {}
            Attribute::Location(operand) => self.node(operand),
            Attribute::MustUse => {}
            Attribute::Size(operand) => self.node(operand),
            Attribute::WorkgroupSize { x, y, z } => {
                self.item(x);
                self.optional_item(y);
                self.optional_item(z);
            }
            Attribute::Vertex => {}
            Attribute::Fragment => {}
            Attribute::Compute => {}
            Attribute::Publish => {}
            Attribute::If(operand) => self.node(operand),
            Attribute::Elif(operand) => self.node(operand),
            Attribute::Else => {}
            Attribute::Custom { name: _, arguments } => self.optional_items(arguments),
        }
    }

    pub(crate) fn attributes(&mut self, attributes: &mut Attributes)
        ensures { Guards self.old self.new attributes_tree attributes.old attributes.new }
    {
        for attribute in attributes.iter_mut() {
            self.attribute(&mut attribute.node);
        }
    }
}
