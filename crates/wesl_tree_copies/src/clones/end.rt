//! The end of a copy.
ghost use Rattle.std.specs.Prelude.{◌≡◌, false, IfErr, IfOk, OnOk};
ghost use Rattle.wesl_tree_names.specs.declared.errors.Error as error;

use wesl_tree_names::Error;

/// The copy that was made, unless memory was wanting for it.
pub fn unless_refused<T: Drop>(is_refused: bool, copy: T) -> Result<T, Error>
    ensures given { IfOk result (λ given. given ≡ copy) }
    ensures noted { OnOk result (is_refused ≡ false) }
    ensures refused { IfErr result (λ e. e ≡ error.Memory) }
{
    if is_refused {
        Err(Error::Memory)
    } else {
        Ok(copy)
    }
}
