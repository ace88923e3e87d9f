//! What is refused for want of memory alone.
ghost use Rattle.std.specs.Prelude.{◌≡◌, OnOk, IfErr, is_ok};
ghost use Rattle.wesl_tree_names.specs.declared.errors.ResolveError as resolve_error;

use wesl_tree_names::{Diagnostic, Error, ResolveError};

/// What may be refused for want of memory alone, as a resolver tells it.
///
/// Refused where `recorded` is, for want of memory whatever its error.
pub fn as_resolved(recorded: Result<(), Error>) -> Result<(), ResolveError>
    ensures same { is_ok result ≡ is_ok recorded }
    ensures refused { IfErr result (λ e. e ≡ resolve_error.Memory) }
{
    match recorded {
        Ok(()) => Ok(()),
        Err(fault) => {
            // An error is let go as a diagnostic, by one call.
            let _fault = Diagnostic::of(fault);
            Err(ResolveError::Memory)
        }
    }
}

/// Lets a refusal go, where it is not for want of memory.
///
/// Refused for want of memory alone, where `refusal` is.
pub fn unless_memory(refusal: ResolveError) -> Result<(), ResolveError>
    ensures other { OnOk result (refusal ≡ resolve_error.Memory → ⊥) }
    ensures refused { IfErr result (λ e. e ≡ resolve_error.Memory) }
    ensures same { IfErr result (λ e. e ≡ refusal) }
{
    match refusal {
        ResolveError::Memory => Err(ResolveError::Memory),
        refusal => {
            // A refusal is let go as a diagnostic, by one call.
            let _refusal = Diagnostic::of(Error::Resolve(refusal));
            Ok(())
        }
    }
}
