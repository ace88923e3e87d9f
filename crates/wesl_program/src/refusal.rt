//! Why there is no answer.
ghost use Rattle.std.specs.Prelude.{◌≡◌, false};
ghost use Rattle.wesl_tree_names.specs.declared.errors.Diagnostic.{out-Diagnostic};

use wesl_tree::{Diagnostic, Error};

/// Why the bytes of a bundle have no answer.
#[derive(Drop)]
pub struct Refusal {
    /// The fault, with the place where it was found.
    pub diagnostic: Diagnostic,
    /// Whether the place is told, as it is where the bundle asks for form 2.
    pub is_placed: bool,
}

impl Refusal {
    /// The refusal for an error whose place is not told.
    pub(crate) fn of(error: Error) -> Refusal
        ensures error { (out-Diagnostic result.diagnostic).error ≡ error }
        ensures unplaced { result.is_placed ≡ false }
    {
        Refusal {
            diagnostic: Diagnostic::of(error),
            is_placed: false,
        }
    }
}
