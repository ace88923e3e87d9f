//! Parts that are read, put together: all of them, or the first fault.
//!
//! What is read of each part is handed on as it is, a fault too, so that an object has one place where it asks for faults.
ghost use Rattle.std.specs.Prelude.{◌≡◌, Ok, Some, IfOk, IfErr, OnOk, map, true};
ghost use Rattle.wesl_json_form.specs.View.{borrowed_view};
ghost use Rattle.wesl_json_form.specs.Keys.{has_only};
ghost use Rattle.wesl_json_form.specs.Pointer.{index as index_part, key as key_part};
ghost use Rattle.wesl_program_bundle.specs.Parts.{IsEither, IsFaultUnder, IsItemFault, IsKeyOr, IsUnreadUnder, IsWithItem};

use crate::members::{BundleError, under, under_index, wrong};
use std::alloc::Global;
use wesl_json_form::BorrowedValue;

// Both parts.
pub(crate) fn both<A: Drop, B: Drop>(
    first: Result<A, BundleError>,
    second: Result<B, BundleError>,
) -> Result<(A, B), BundleError>
    ensures ok { IfOk result (λ parts. (first ≡ Ok parts.0) × (second ≡ Ok parts.1)) }
    ensures place { IfErr result (IsEither first second) }
{
    match first {
        Ok(first) => match second {
            Ok(second) => Ok((first, second)),
            Err(error) => Err(error),
        },
        Err(error) => Err(error),
    }
}

// What is read of an object, if it has no keys but these.
pub(crate) fn only<T: Drop>(
    alloc: Global,
    value: &BorrowedValue<'_>,
    known: &[&str],
    read: Result<T, BundleError>,
) -> Result<T, BundleError>
    ensures ok { IfOk result (λ x. read ≡ Ok x) }
    ensures keys { OnOk result (has_only (map (λ k. k.now) known.now) (borrowed_view value.now) ≡ true) }
    ensures place { IfErr result (IsKeyOr (has_only (map (λ k. k.now) known.now) (borrowed_view value.now)) read) }
{
    if wesl_json_form::has_only(value, known) {
        read
    } else {
        Err(wrong(alloc))
    }
}

// What is read of the member at a key, with its fault told of the object.
pub(crate) fn inside<T: Drop>(
    alloc: Global,
    key: &str,
    read: Result<T, BundleError>,
) -> Result<T, BundleError>
    ensures ok { IfOk result (λ x. read ≡ Ok x) }
    ensures place { IfErr result (IsFaultUnder (key_part key.now) read) }
{
    match read {
        Ok(part) => Ok(part),
        Err(error) => Err(under(alloc, error, key)),
    }
}

// What is read of the member at a key, which is wrong where nothing is read of it.
pub(crate) fn stated<T: Drop>(alloc: Global, key: &str, read: Option<T>) -> Result<T, BundleError>
    ensures ok { IfOk result (λ x. read ≡ Some x) }
    ensures place { IfErr result (IsUnreadUnder key.now read) }
{
    match read {
        Some(part) => Ok(part),
        None => Err(under(alloc, wrong(alloc), key)),
    }
}

// What is read of a list, with what is read of its item at an index.
pub(crate) fn with_item<T: Drop>(
    alloc: Global,
    list: Result<Vec<T>, BundleError>,
    index: usize,
    item: Result<T, BundleError>,
) -> Result<Vec<T>, BundleError>
    ensures ok { IfOk result (IsWithItem list item) }
    ensures place { IfErr result (IsItemFault index list item) }
{
    match both(list, inside_index(alloc, index, item)) {
        Ok((mut list, item)) => match list.push(item) {
            Ok(()) => Ok(list),
            Err(_) => Err(BundleError::Memory),
        },
        Err(error) => Err(error),
    }
}

// What is read of an item, with its fault told of the list.
fn inside_index<T: Drop>(
    alloc: Global,
    index: usize,
    read: Result<T, BundleError>,
) -> Result<T, BundleError>
    ensures ok { IfOk result (λ x. read ≡ Ok x) }
    ensures place { IfErr result (IsFaultUnder (index_part index) read) }
{
    match read {
        Ok(part) => Ok(part),
        Err(error) => Err(under_index(alloc, error, index)),
    }
}
