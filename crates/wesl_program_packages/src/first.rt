//! Of values with one name the first.
ghost use Rattle.std.specs.Prelude.{◌≡◌, Some, None, OnOk, if◌then◌else◌, string_bytes, bytes_eq};
ghost use Rattle.std.specs.Option.{option_or};
ghost use Rattle.std.specs.HashMap.{get_by_text};
ghost use Rattle.wesl_tree_names.specs.Path.{Text};

use std::alloc::AllocError;
use std::collections::HashMap;

/// Adds a value under a name, if none has it yet. Refused for want of memory alone.
pub(crate) fn add_first<T: Drop>(
    named: &mut HashMap<String, T>,
    name: String,
    one: T,
) -> Result<(), AllocError>
    ensures added { OnOk result ((n : Text) → get_by_text named.new n ≡ option_or (get_by_text named.old n) (if bytes_eq (string_bytes name) n then Some one else None)) }
{
    if !named.contains_key(name.as_str()) {
        named.insert(name, one)?;
    }
    Ok(())
}
