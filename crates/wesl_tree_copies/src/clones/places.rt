//! Copies of nodes with their places in the source.
ghost use Rattle.wesl_tree_syntax.specs.View.{placed};

use crate::clones::{Node, Placed};
use crate::copying::Copying;
use wesl_tree_syntax::Spanned;

impl<T: Placed> Node for Spanned<T> {
    ghost tree = { placed T.tree T.place };

    fn copied(&self, copying: &mut Copying<'_>) -> Spanned<T> {
        Spanned {
            node: self.node.copied(copying),
            span: self.span,
        }
    }
}
