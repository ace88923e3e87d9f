//! Imports, references, symbols and look-ups, for any kind of path `P` and of name `N`.
ghost use Rattle.std.specs.Prelude.{◌≡◌, ⊤};

use std::alloc::AllocError;
use wesl_cond_choices::place::Place;

/// An import with a target, as a module binds it (WESL, "Imports").
#[derive(Copy, Drop)]
pub struct Import<P, N> {
    /// The name that it binds in its module.
    pub bound: N,
    /// The module that it imports from.
    pub path: P,
    /// The name there.
    pub item: N,
    /// Whether other modules see it (WESL, "Visibility": `@publish`).
    pub published: bool,
    /// Where it stands, and `Always` where its name has one target.
    pub place: Place,
    /// Where it asks from: `Always` unless it aims at a name of its own module that has several targets.
    pub from: Place,
    /// What it finds there: 0 nothing, 1 two targets, 2 one, or it aims elsewhere.
    pub order: usize,
}

// By hand, since a derived copy asks each part for one, which may be refused.
impl<P: Copy, N: Copy> Clone for Import<P, N> {
    ghost is_clone = { λ old new. new ≡ old };

    ghost is_infallible = { λ _. ⊤ };

    fn clone(&self) -> Result<Import<P, N>, AllocError> {
        Ok(*self)
    }
}

/// What a name that is used asks for: a name in the module at a path.
#[derive(Copy, Drop)]
pub struct Reference<P, N> {
    pub path: P,
    pub name: N,
    /// The place that it asks from, and `Always` unless the name has several targets in its own module.
    pub from: Place,
}

impl<P: Copy, N: Copy> Clone for Reference<P, N> {
    ghost is_clone = { λ old new. new ≡ old };

    ghost is_infallible = { λ _. ⊤ };

    fn clone(&self) -> Result<Reference<P, N>, AllocError> {
        Ok(*self)
    }
}

/// The symbol of a name in the module at a path.
#[derive(Copy, PartialEq, Eq, Hash, Drop)]
pub struct Symbol<P, N> {
    pub path: P,
    pub name: N,
}

impl<P: Copy, N: Copy> Clone for Symbol<P, N> {
    ghost is_clone = { λ old new. new ≡ old };

    ghost is_infallible = { λ _. ⊤ };

    fn clone(&self) -> Result<Symbol<P, N>, AllocError> {
        Ok(*self)
    }
}

/// The question what a name stands for in the module at a path. A kept name is asked for by no module.
#[derive(Copy, PartialEq, Eq, Hash, Drop)]
pub struct LookUp<P, N> {
    pub asker: Option<P>,
    pub path: P,
    pub name: N,
    /// The place of its own module that it is asked from, and `Always` from outside.
    pub from: Place,
}

impl<P: Copy, N: Copy> Clone for LookUp<P, N> {
    ghost is_clone = { λ old new. new ≡ old };

    ghost is_infallible = { λ _. ⊤ };

    fn clone(&self) -> Result<LookUp<P, N>, AllocError> {
        Ok(*self)
    }
}

/// What a module answers to a look-up (WESL, "Imports", "Visibility" and "ConditionalTranslation").
#[derive(Drop)]
pub enum Answer<P, N> {
    /// It declares the name.
    Declared,
    /// It imports the name, and asks this further.
    Next(LookUp<P, N>),
    /// It has no such name.
    Missing,
    /// Nothing of the name is seen there, and it has unpublished imports of it.
    Private,
    /// The name stands for two things there.
    Ambiguous,
}
