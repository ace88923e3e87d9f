//! Copies of every node, by a method of the node that is copied.
ghost use Rattle.std.specs.Prelude.{◌≡◌, IfErr, IfOk};
ghost use Rattle.wesl_tree_names.specs.declared.errors.Error as error;
ghost use Rattle.wesl_tree_syntax.specs.Tree.{Kind, Tree};
ghost use Rattle.wesl_tree_copies.specs.Copied.{Copies};

mod attributes;
mod declarations;
mod end;
mod expressions;
mod imports;
mod places;
mod statements;

use crate::copying::Copying;
pub use end::unless_refused;
use std::alloc::Global;
use wesl_tree_names::Error;

/// A node, which can be copied.
pub trait Node: Sized + Drop {
    /// the tree that a node stands for
    ghost tree: { Self → Tree };

    /// A copy of a node, in a walk that notes want of memory.
    fn copied(&self, copying: &mut Copying<'_>) -> Self
        ensures { Copies copying.old copying.new tree self.now result };
}

/// A node that stands somewhere in the source.
pub trait Placed: Node {
    /// what its place is labelled with
    ghost place: { Kind };
}

/// What can be copied: every node. An equal copy stands for the same tree as the original.
pub trait TryClone: Sized {
    /// the tree that a value stands for, with the numbers of its identifiers and with its spans
    ghost tree: { Self → Tree };

    /// An equal copy, spans too. Refused for want of memory alone.
    fn try_clone(&self, alloc: Global) -> Result<Self, Error>
        ensures equal { IfOk result (λ copy. tree copy ≡ tree self.now) }
        ensures refused { IfErr result (λ e. e ≡ error.Memory) };
}

impl<T: Node> TryClone for T {
    ghost tree = { T.Node.tree };

    fn try_clone(&self, alloc: Global) -> Result<T, Error> {
        let mut copying = Copying::of(alloc);
        let copy = self.copied(&mut copying);
        unless_refused(copying.is_refused, copy)
    }
}
