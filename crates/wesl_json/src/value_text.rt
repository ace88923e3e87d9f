//! Reading values from texts, and writing them.
ghost use Rattle.std.specs.Prelude.{◌≡◌, ◌≤◌, Some, IfOk, IfErr, string_bytes};
ghost use Rattle.serde_json.specs.Data.{depth};
ghost use Rattle.serde_json.specs.Read.{max_depth, read};
ghost use Rattle.serde_json.specs.View.{view};
ghost use Rattle.wesl_json_form.specs.View.{borrowed_view};
ghost use Rattle.wesl_tree_names.specs.declared.errors.Error as error;
ghost use Rattle.wesl_json.specs.Texts.{IsNoJson, IsTextOf};

use bumpalo::Bump;
use json::Scratch;
use serde_json::Value;
use std::alloc::Global;
use wesl_json_form::{BorrowedValue, ReadFault, read_borrowed};
use wesl_tree_names::Error;

/// The value that a text is, as JSON (RFC 8259) with arrays and objects nested at most 127 deep.
///
/// A text that is none is refused with `NotJson`. Otherwise it is refused for want of memory alone.
pub fn value_of_text(alloc: Global, text: &str) -> Result<Value, Error>
    ensures value { IfOk result (λ v. read text.now ≡ Some (view v)) }
    ensures refused { IfErr result (IsNoJson text.now) }
{
    match Value::from_str(alloc, text) {
        Ok(value) => Ok(value),
        Err(error) if error.is_memory() => Err(Error::Memory),
        Err(_) => Err(Error::NotJson),
    }
}

/// The same value in its light form: its texts stand in the text, or, where they have escapes, in the scratch; its
/// lists stand in the arena.
///
/// Refused as `value_of_text` refuses.
pub fn borrowed_of_text<'a>(
    alloc: Global,
    text: &'a str,
    scratch: &'a mut Scratch,
    arena: &'a Bump,
) -> Result<BorrowedValue<'a>, Error>
    ensures value { IfOk result (λ v. read text.now ≡ Some (borrowed_view v)) }
    ensures refused { IfErr result (IsNoJson text.now) }
{
    match read_borrowed(alloc, text, scratch, arena) {
        Ok(value) => Ok(value),
        Err(ReadFault::Memory) => Err(Error::Memory),
        Err(ReadFault::NotJson) => Err(Error::NotJson),
    }
}

/// The text of a value. Where no number of it is a float, it has no space, and the members of each object in the order of
/// their keys' bytes; of a value with a float neither is promised.
///
/// Where it is read again, it is read as the value; it is read where the value nests at most 127 deep. Refused for want
/// of memory alone.
pub fn text_of_value(alloc: Global, value: &Value) -> Result<String, Error>
    ensures text { IfOk result (λ s. IsTextOf (view value.now) (string_bytes s)) }
    ensures is_read { IfOk result (λ s. depth (view value.now) ≤ max_depth → read (string_bytes s) ≡ Some (view value.now)) }
    ensures refused { IfErr result (λ e. e ≡ error.Memory) }
{
    Ok(value.to_string(alloc)?)
}
