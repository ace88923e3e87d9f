//! What is told of a world of modules, and how a look-up ends in it.
ghost use Rattle.std.specs.Prelude.{◌≡◌, ⊤};
ghost use Rattle.std.proofs.Common.{rules};

use crate::asker::Asker;
use std::alloc::AllocError;
use wesl_link_symbols::ids::{NameId, PathId};
use wesl_link_symbols::keyed::Identity;
use wesl_link_symbols::symbols::Symbol;

/// What is wrong at a path, for any kind of name `N`.
#[derive(Copy, PartialEq, Eq, Hash, Drop)]
pub enum Flaw<N> {
    /// Two binders of the name have different targets, and are there at once.
    Clash(N),
    /// There is no module.
    NoModule,
    /// The module lacks the name, or a look-up comes to it a second time.
    Lacking(N),
    /// The module imports the name and does not publish it.
    Hidden(N),
    /// The name stands for two things.
    Unsure(N),
}

// By hand, since a derived copy asks each part for one, which may be refused.
impl<N: Copy> Clone for Flaw<N> {
    ghost is_clone = { λ old new. new ≡ old };

    ghost is_infallible = { λ _. ⊤ };

    fn clone(&self) -> Result<Flaw<N>, AllocError> {
        Ok(*self)
    }
}

/// What is wrong, who asks, and the path at which it is wrong.
#[derive(Copy, PartialEq, Eq, Hash, Drop)]
pub struct Told<P, N> {
    pub flaw: Flaw<N>,
    pub asker: Asker<P, N>,
    pub at: P,
}

impl<P: Copy, N: Copy> Clone for Told<P, N> {
    ghost is_clone = { λ old new. new ≡ old };

    ghost is_infallible = { λ _. ⊤ };

    fn clone(&self) -> Result<Told<P, N>, AllocError> {
        Ok(*self)
    }
}

impl Identity for Told<PathId, NameId> {
    ghost same = { Prim.search rules };
}

/// How a look-up ends.
#[derive(Copy, Drop)]
pub enum End<P, N> {
    /// It leads to the symbol.
    Found(Symbol<P, N>),
    /// That is wrong at the path.
    Flawed(Flaw<N>, P),
}

impl<P: Copy, N: Copy> Clone for End<P, N> {
    ghost is_clone = { λ old new. new ≡ old };

    ghost is_infallible = { λ _. ⊤ };

    fn clone(&self) -> Result<End<P, N>, AllocError> {
        Ok(*self)
    }
}
