//! Reading the members of a bundle's objects, and the places of their faults.
ghost use Rattle.std.specs.Prelude.{◌≡◌, [], false, None, Some, IfOk, IfErr, map, option_and_then, option_map, string_bytes};
ghost use Rattle.serde_json.specs.Find.{get};
ghost use Rattle.wesl_json_form.specs.View.{borrowed_view};
ghost use Rattle.wesl_tree_names.specs.Path.{path_view, is_relative};
ghost use Rattle.wesl_tree_names.specs.PathText.{parse};
ghost use Rattle.wesl_json_form.specs.Pointer.{key as key_part, index as index_part};
ghost use Rattle.wesl_program_bundle.specs.Broken.{place_of, IfPlace, IsUnder, Locates, LocatesMember};
ghost use Rattle.wesl_program_bundle.specs.Forms.{a_list_of, a_name, a_path, a_unit, optional, required};
ghost use Rattle.wesl_program_bundle.specs.Parts.{text_form, text_in};
ghost use Rattle.wesl_program_bundle.specs.Reading.{name_in, or_empty, path_in, required_in, unless_relative};

use crate::joined::{inside, with_item};
use std::alloc::{AllocError, AllocFailed, Global};
use wesl_json_form::BorrowedValue;
use wesl_tree_names::{Error, ModulePath};

/// Why a bundle was not read: the place of a fault, as a JSON Pointer (RFC 6901), or want of memory.
#[derive(Drop)]
pub enum BundleError {
    /// The place at which the value breaks the form.
    At(String),
    /// Memory was refused.
    Memory,
}

impl From<AllocError> for BundleError {
    ghost use Rattle.std.specs.Prelude.{◌≡◌};
    ghost use Rattle.wesl_program_bundle.specs.declared.members.BundleError.TheVariants.{Memory};

    ghost from_gives = { λ _ e. e ≡ Memory };

    fn from(_: AllocError) -> BundleError {
        BundleError::Memory
    }
}

impl<T: Drop> From<AllocFailed<T>> for BundleError {
    ghost use Rattle.std.specs.Prelude.{◌≡◌};
    ghost use Rattle.wesl_program_bundle.specs.declared.members.BundleError.TheVariants.{Memory};

    ghost from_gives = { λ _ e. e ≡ Memory };

    fn from(_: AllocFailed<T>) -> BundleError {
        BundleError::Memory
    }
}

impl From<BundleError> for Error {
    ghost use Rattle.std.specs.Prelude.{◌≡◌};
    ghost use Rattle.wesl_program_bundle.specs.Broken.{error_of};

    ghost from_gives = { λ b e. e ≡ error_of b };

    fn from(fault: BundleError) -> Error {
        match fault {
            BundleError::At(place) => Error::BadBundle(place),
            BundleError::Memory => Error::Memory,
        }
    }
}

// The value itself is wrong.
pub(crate) fn wrong(alloc: Global) -> BundleError
    ensures { place_of result ≡ Some [] }
{
    BundleError::At(String::new(alloc))
}

// The same fault, of an object that has the faulty value as its member.
pub(crate) fn under(alloc: Global, error: BundleError, key: &str) -> BundleError
    ensures { IsUnder (key_part key.now) error result }
{
    match error {
        BundleError::At(place) => match wesl_json_form::under_key(alloc, key, place.as_str()) {
            Ok(place) => BundleError::At(place),
            Err(_) => BundleError::Memory,
        },
        BundleError::Memory => BundleError::Memory,
    }
}

// The same fault, of a list that has the faulty value at an index.
pub(crate) fn under_index(alloc: Global, error: BundleError, index: usize) -> BundleError
    ensures { IsUnder (index_part index) error result }
{
    match error {
        BundleError::At(place) => match wesl_json_form::under_index(alloc, index, place.as_str()) {
            Ok(place) => BundleError::At(place),
            Err(_) => BundleError::Memory,
        },
        BundleError::Memory => BundleError::Memory,
    }
}

// The text that a value is, an empty one only where it may be empty.
fn text_in<'t>(value: &BorrowedValue<'t>, may_be_empty: bool) -> Option<&'t str>
    ensures { option_map (λ s. s.now) result ≡ text_in may_be_empty (borrowed_view value.now) }
{
    match value.as_str() {
        Some("") if !may_be_empty => None,
        text => text,
    }
}

// The same, as a text of its own.
fn text_of(
    alloc: Global,
    value: &BorrowedValue<'_>,
    may_be_empty: bool,
) -> Result<String, BundleError>
    ensures ok { IfOk result (λ s. text_in may_be_empty (borrowed_view value.now) ≡ Some (string_bytes s)) }
    ensures place { IfErr result (Locates (text_form may_be_empty) (borrowed_view value.now)) }
{
    match text_in(value, may_be_empty) {
        Some(text) => match String::from_str(alloc, text) {
            Ok(text) => Ok(text),
            Err(_) => Err(BundleError::Memory),
        },
        None => Err(wrong(alloc)),
    }
}

// The texts at the key, none where it is not there.
pub(crate) fn texts_member(
    alloc: Global,
    value: &BorrowedValue<'_>,
    key: &str,
    may_be_empty: bool,
) -> Result<Vec<String>, BundleError>
    ensures ok { IfOk result (λ v. or_empty (text_in may_be_empty) (get key.now (borrowed_view value.now)) ≡ Some (map string_bytes v.items)) }
    ensures place { IfErr result (LocatesMember (optional key.now (a_list_of (text_form may_be_empty))) (borrowed_view value.now)) }
{
    let Some(list) = value.get(key) else {
        return Ok(Vec::new(alloc));
    };
    let Some(items) = list.as_array() else {
        return Err(under(alloc, wrong(alloc), key));
    };
    let mut texts = Ok(Vec::new(alloc));
    for (index, item) in items.iter().enumerate() {
        let text = text_of(alloc, item, may_be_empty);
        texts = with_item(alloc, texts, index, text);
    }
    inside(alloc, key, texts)
}

// The name at the key, a nonempty text.
pub(crate) fn name_member(
    alloc: Global,
    value: &BorrowedValue<'_>,
    key: &str,
) -> Result<String, BundleError>
    ensures ok { IfOk result (λ s. required_in name_in key.now (borrowed_view value.now) ≡ Some (string_bytes s)) }
    ensures place { IfErr result (LocatesMember (required key.now a_name) (borrowed_view value.now)) }
{
    match value.get(key) {
        Some(name) => inside(alloc, key, text_of(alloc, name, false)),
        None => Err(wrong(alloc)),
    }
}

// What is at the key, which has to be there.
pub(crate) fn unit_member<'t>(
    alloc: Global,
    value: &BorrowedValue<'t>,
    key: &str,
) -> Result<BorrowedValue<'t>, BundleError>
    ensures ok { IfOk result (λ u. get key.now (borrowed_view value.now) ≡ Some (borrowed_view u)) }
    ensures place { IfErr result (LocatesMember (required key.now a_unit) (borrowed_view value.now)) }
{
    match value.get(key) {
        Some(unit) => Ok(*unit),
        None => Err(wrong(alloc)),
    }
}

// The path at the key, which is not relative.
pub(crate) fn path_member(
    alloc: Global,
    value: &BorrowedValue<'_>,
    key: &str,
) -> Result<ModulePath, BundleError>
    ensures ok { IfOk result (λ p. required_in path_in key.now (borrowed_view value.now) ≡ Some (path_view p)) }
    ensures fixed { IfOk result (λ p. is_relative (path_view p) ≡ false) }
    ensures place { IfErr result (LocatesMember (required key.now a_path) (borrowed_view value.now)) }
{
    match value.get(key) {
        Some(path) => inside(alloc, key, path_of(alloc, path)),
        None => Err(wrong(alloc)),
    }
}

// The path that a value's text says, unless it is relative.
fn path_of(alloc: Global, value: &BorrowedValue<'_>) -> Result<ModulePath, BundleError>
    ensures ok { IfOk result (λ p. path_in (borrowed_view value.now) ≡ Some (path_view p)) }
    ensures fixed { IfOk result (λ p. is_relative (path_view p) ≡ false) }
    ensures place { IfErr result (Locates a_path (borrowed_view value.now)) }
{
    match value.as_str() {
        Some(text) => fixed_path(alloc, text),
        None => Err(wrong(alloc)),
    }
}

// The path that a text says, unless it is relative.
fn fixed_path(alloc: Global, text: &str) -> Result<ModulePath, BundleError>
    ensures ok { IfOk result (λ p. option_and_then unless_relative (parse text.now) ≡ Some (path_view p)) }
    ensures fixed { IfOk result (λ p. is_relative (path_view p) ≡ false) }
    ensures place { IfErr result (λ e. IfPlace e (λ p. (p ≡ []) × (option_and_then unless_relative (parse text.now) ≡ None))) }
{
    match ModulePath::parse(alloc, text) {
        Ok(Some(path)) => {
            if path.is_relative() {
                Err(wrong(alloc))
            } else {
                Ok(path)
            }
        }
        Ok(None) => Err(wrong(alloc)),
        Err(_) => Err(BundleError::Memory),
    }
}
