//! What asks for something in a link, or is asked for.
ghost use Rattle.std.specs.Prelude.{◌≡◌, ⊤};
ghost use Rattle.std.proofs.Common.{rules};

use std::alloc::AllocError;
use wesl_link_symbols::ids::{NameId, PathId};
use wesl_link_symbols::keyed::Identity;
use wesl_link_symbols::symbols::Symbol;

/// What asks for something in a link, or is asked for, for any kind of path `P` and of name `N`.
#[derive(Copy, PartialEq, Eq, Hash, Drop)]
pub enum Node<P, N> {
    /// A name of the root that is kept.
    KeptName(N),
    /// The module at a path.
    Module(P),
    /// A symbol: the declarations of a name in the module at a path.
    Item(Symbol<P, N>),
}

// By hand, since a derived copy asks each part for one, which may be refused.
impl<P: Copy, N: Copy> Clone for Node<P, N> {
    ghost is_clone = { λ old new. new ≡ old };

    ghost is_infallible = { λ _. ⊤ };

    fn clone(&self) -> Result<Node<P, N>, AllocError> {
        Ok(*self)
    }
}

impl Identity for Node<PathId, NameId> {
    ghost same = { Prim.search rules };
}
