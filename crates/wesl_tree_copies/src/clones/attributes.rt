//! Copies of attributes.
ghost use Rattle.wesl_tree_syntax.specs.Tree.{attribute_node};
ghost use Rattle.wesl_tree_syntax.specs.View.{attribute_view};

use crate::clones::{Node, Placed};
use crate::copying::Copying;
use wesl_tree_syntax::Attribute;

impl Node for Attribute {
    ghost tree = { attribute_view };

    fn copied(&self, copying: &mut Copying<'_>) -> Attribute {
        copying.attribute(self)
    }
}

impl Placed for Attribute {
    ghost place = { attribute_node };
}
