//! Who asks in a link.
ghost use Rattle.std.specs.Prelude.{◌≡◌, ⊤};

use std::alloc::AllocError;

/// Who asks in a link, for any kind of path `P` and of name `N`.
#[derive(Copy, PartialEq, Eq, Hash, Drop)]
pub enum Asker<P, N> {
    /// A name of the root that is kept.
    Kept(N),
    /// Of the module at the path, in the declaration with the first number, the reference with the second.
    Named(P, usize, usize),
    /// Of the module at the path, in the declaration with the first number, the unclear name with the second.
    Unclear(P, usize, usize),
    /// Of the module at the path, the import with that number.
    Imported(P, usize),
    /// The module at the path itself.
    Whole(P),
}

// By hand, since a derived copy asks each part for one, which may be refused.
impl<P: Copy, N: Copy> Clone for Asker<P, N> {
    ghost is_clone = { λ old new. new ≡ old };

    ghost is_infallible = { λ _. ⊤ };

    fn clone(&self) -> Result<Asker<P, N>, AllocError> {
        Ok(*self)
    }
}
