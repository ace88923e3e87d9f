//! Places, grown by a part at their beginning.
ghost use Rattle.std.specs.Prelude.{◌≡◌, ◌∷◌, ◌++◌, decimal, IfOk, string_bytes};
ghost use Rattle.wesl_json_form.specs.Pointer.{escaped};

use std::alloc::{AllocError, Global};

/// The place within the object that has a value with this `place` at `key`: `~` is written `~0`, and `/` is written
/// `~1` (RFC 6901, section 3). Refused for want of memory alone.
pub fn under_key(alloc: Global, key: &str, place: &str) -> Result<String, AllocError>
    ensures { IfOk result (λ s. string_bytes s ≡ (47 ∷ escaped key.now) ++ place.now) }
{
    let mut text = String::from_str(alloc, "/")?;
    for c in key.chars() {
        match c {
            '~' => text.push_str("~0")?,
            '/' => text.push_str("~1")?,
            c => text.push(c)?,
        }
    }
    text.push_str(place)?;
    Ok(text)
}

/// The place within the list that has a value with this `place` at `index`. Refused for want of memory alone.
pub fn under_index(alloc: Global, index: usize, place: &str) -> Result<String, AllocError>
    ensures { IfOk result (λ s. string_bytes s ≡ (47 ∷ decimal index) ++ place.now) }
{
    let text = format!(in alloc; "/{index}{place}")?;
    Ok(text)
}
