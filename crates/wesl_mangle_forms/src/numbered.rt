//! Names with a number, and what is refused for want of memory alone.
ghost use Rattle.std.specs.Prelude.{◌≡◌, IfOk, IfErr, Ok, is_ok, string_bytes};
ghost use Rattle.wesl_tree_names.specs.declared.errors.Error as error;
ghost use Rattle.wesl_mangle_forms.specs.Items.{numbered};

use std::alloc::{AllocError, Global};
use wesl_tree_names::Error;

/// What was made, with want of memory as a fault.
pub fn told<T: Drop>(made: Result<T, AllocError>) -> Result<T, Error>
    ensures made { IfOk result (λ thing. made ≡ Ok thing) }
    ensures refused { IfErr result (λ e. e ≡ error.Memory) }
{
    match made {
        Ok(thing) => Ok(thing),
        Err(_) => Err(Error::Memory),
    }
}

/// Whether it was made.
pub fn is_made<T: Drop, E: Drop>(made: Result<T, E>) -> bool
    ensures { result ≡ is_ok made }
{
    made.is_ok()
}

/// The item, an underscore and the number in decimal digits.
pub fn number_item(alloc: Global, item: &str, number: u64) -> Result<String, Error>
    ensures named { IfOk result (λ text. string_bytes text ≡ numbered item.now number) }
    ensures refused { IfErr result (λ e. e ≡ error.Memory) }
{
    told(format!(in alloc; "{item}_{number}"))
}
