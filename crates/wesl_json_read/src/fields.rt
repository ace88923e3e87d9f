//! The members of an object, and the places of faults.
//!
//! A fault's place is a JSON Pointer (RFC 6901). It begins empty, at the value that is wrong, and grows on the way
//! out, by the key or the index of each value round it.
ghost use Rattle.std.specs.Prelude.{◌≡◌, Some, IfOk, IfErr, codes, option_and_then, option_map};
ghost use Rattle.wesl_json_form.specs.View.{borrowed_view};
ghost use Rattle.wesl_tree_names.specs.Path.{path_view};
ghost use Rattle.wesl_json_form.specs.Reading.{name_in, ordered, path_in, span_in, span_of};
ghost use Rattle.wesl_json_form.specs.Schema.{a_path, leaf};
ghost use Rattle.wesl_tree_syntax.specs.View.{path_tree};
ghost use Rattle.wesl_json_read.specs.Gives.{GivesIfAlways};
ghost use Rattle.wesl_json_read.specs.Numbers.{IsNameNumbered};
ghost use Rattle.wesl_json_read.specs.Faults.{IsAtRoot, IsUnder, LocatesHere, LocatesInsideAlways, LocatesSpan};
ghost use Rattle.wesl_json_read.specs.Parts.{IsFaultUnder, IsWhatIsRead};

use crate::numbering::Numbering;
use std::alloc::Global;
use wesl_json_form::BorrowedValue;
use wesl_tree_names::{Error, Ident, ModulePath, Span};

/// The value itself is wrong.
pub fn wrong(alloc: Global) -> Error
    ensures { IsAtRoot result }
{
    Error::BadTree(String::new(alloc))
}

/// The same fault, told of the object that has the faulty value as its member `key`.
pub fn under(alloc: Global, error: Error, key: &str) -> Error
    ensures { IsUnder key.now error result }
{
    match error {
        Error::BadTree(place) => match wesl_json_form::under_key(alloc, key, place.as_str()) {
            Ok(place) => Error::BadTree(place),
            Err(_) => Error::Memory,
        },
        other => other,
    }
}

/// The span at `span`: of no place where there is none, and where spans are not read.
///
/// # Errors
///
/// `BadTree` at `span`, where that is no list of just two whole numbers that do not fall and are below 2^32.
pub(crate) fn read_span(
    alloc: Global,
    spans: bool,
    value: &BorrowedValue<'_>,
) -> Result<Span, Error>
    ensures ok { IfOk result (λ s. span_in spans (borrowed_view value.now) ≡ Some (s.start, s.end)) }
    ensures place { IfErr result (LocatesSpan spans (borrowed_view value.now)) }
{
    if !spans {
        return Ok(Span { start: 0, end: 0 });
    }
    let Some(member) = value.get("span") else {
        return Ok(Span { start: 0, end: 0 });
    };
    match span_of(member) {
        Some(span) => Ok(span),
        None => Err(under(alloc, wrong(alloc), "span")),
    }
}

// A list of two whole numbers, as a span.
fn span_of(value: &BorrowedValue<'_>) -> Option<Span>
    ensures { option_map (λ s. (s.start, s.end)) result ≡ span_of (borrowed_view value.now) }
{
    let items = value.as_array()?;
    if items.len() != 2 {
        return None;
    }
    span_between(items[0].as_u64(), items[1].as_u64())
}

// The span from one place to another, which both have 32 bits.
fn span_between(start: Option<u64>, end: Option<u64>) -> Option<Span>
    ensures { option_map (λ s. (s.start, s.end)) result ≡ option_and_then (λ s. option_and_then (ordered s) end) start }
{
    let start = start?;
    let end = end?;
    if start <= end && end < 4294967296 {
        Some(Span {
            start: start as u32,
            end: end as u32,
        })
    } else {
        None
    }
}

/// The text of a name, which is not empty.
pub(crate) fn name_of<'a>(alloc: Global, value: &BorrowedValue<'a>) -> Result<&'a str, Error>
    ensures ok { IfOk result (λ s. name_in (borrowed_view value.now) ≡ Some s.now) }
    ensures place { IfErr result (LocatesHere (name_in (borrowed_view value.now))) }
{
    match value.as_str() {
        Some(text) if !text.is_empty() => Ok(text),
        _ => Err(wrong(alloc)),
    }
}

// The path that a text says.
fn path_of(alloc: Global, value: &BorrowedValue<'_>) -> Result<ModulePath, Error>
    ensures ok { IfOk result (λ p. path_in (borrowed_view value.now) ≡ Some (path_view p)) }
    ensures place { IfErr result (LocatesHere (path_in (borrowed_view value.now))) }
{
    let Some(text) = value.as_str() else {
        return Err(wrong(alloc));
    };
    match ModulePath::parse(alloc, text)? {
        Some(path) => Ok(path),
        None => Err(wrong(alloc)),
    }
}

/// The number of the name that a value is.
pub(crate) fn number_of(
    alloc: Global,
    numbering: &mut Numbering,
    value: &BorrowedValue<'_>,
) -> Result<Ident, Error>
    ensures ok { IfOk result (λ i. IsNameNumbered (borrowed_view value.now) i.0 numbering.old numbering.new) }
    ensures place { IfErr result (LocatesHere (name_in (borrowed_view value.now))) }
{
    match name_of(alloc, value) {
        Ok(name) => numbering.number(alloc, name),
        Err(error) => Err(error),
    }
}

/// The path at `path`, an option.
pub(crate) fn optional_path(
    alloc: Global,
    value: &BorrowedValue<'_>,
) -> Result<Option<ModulePath>, Error>
    ensures ok { GivesIfAlways result path_tree (codes "path") (leaf a_path) value.now }
    ensures place { IfErr result (LocatesInsideAlways (codes "path") (leaf a_path) (borrowed_view value.now)) }
{
    let Some(member) = value.get("path") else {
        return Ok(None);
    };
    inside_option(alloc, "path", path_of(alloc, member))
}

// What is read of the member `key`, which might have been absent, with its fault told of the object.
fn inside_option<T: Drop>(
    alloc: Global,
    key: &str,
    read: Result<T, Error>,
) -> Result<Option<T>, Error>
    ensures ok { IfOk result (IsWhatIsRead read) }
    ensures place { IfErr result (IsFaultUnder key.now read) }
{
    match read {
        Ok(part) => Ok(Some(part)),
        Err(error) => Err(under(alloc, error, key)),
    }
}
