//! Why a link is refused.
use std::alloc::{AllocError, AllocFailed};
use wesl_link_symbols::ids::{NameId, PathId};

/// Why a link is refused, where the loader refuses with an `E`.
#[derive(Drop)]
pub enum LinkError<E> {
    /// Two binders of the name in the module at the path have different targets, and are there at once.
    DuplicateSymbol(PathId, NameId),
    /// The loader refuses a path that is entered.
    Refused(E),
    /// A look-up ends at a module without the name, or comes to it a second time.
    MissingDecl(PathId, NameId),
    /// A look-up comes to a module that imports the name and does not publish it.
    Private(NameId, PathId),
    /// There are more modules than may be.
    ModuleLimit(usize),
    /// Two targets of the name may be meant where it is used, or where a look-up comes to it.
    AmbiguousSymbol(NameId),
    /// A name of the module at the path has several targets, and its conditions name more than 16 flags.
    TooManyFlags(PathId),
    /// Memory was short.
    Memory,
}

impl<E> From<AllocError> for LinkError<E> {
    ghost use Rattle.wesl_link_reach.specs.declared.error.LinkError.TheVariants.{Memory};
    ghost use Rattle.std.specs.Prelude.{◌≡◌};

    ghost from_gives = { λ _ error. error ≡ Memory };

    fn from(_refused: AllocError) -> LinkError<E> {
        LinkError::Memory
    }
}

impl<E, T: Drop> From<AllocFailed<T>> for LinkError<E> {
    ghost use Rattle.wesl_link_reach.specs.declared.error.LinkError.TheVariants.{Memory};
    ghost use Rattle.std.specs.Prelude.{◌≡◌};

    ghost from_gives = { λ _ error. error ≡ Memory };

    fn from(_refused: AllocFailed<T>) -> LinkError<E> {
        LinkError::Memory
    }
}
