//! Reading units.
ghost use Rattle.std.specs.Prelude.{◌≡◌, IfOk, IfErr, OnOk, true};
ghost use Rattle.wesl_json_form.specs.View.{borrowed_view};
ghost use Rattle.wesl_json_form.specs.Keys.{has_only};
ghost use Rattle.wesl_json_form.specs.Nodes.{unit_row};
ghost use Rattle.wesl_json_form.specs.Reading.{known_keys};
ghost use Rattle.wesl_json_form.specs.Schema.{beside, second_form};
ghost use Rattle.wesl_json_form.specs.Units.{IsBrokenUnit, IsNoUnit, IsUnitOf, says_form};
ghost use Rattle.wesl_tree.specs.Translation.{unit_view};
ghost use Rattle.wesl_json_read.specs.Faults.{IfPlace};
ghost use Rattle.wesl_json_read_unit.specs.Forms.{LocatesForm, has_its_form};

use crate::declaration::declarations;
use crate::directive::directives;
use crate::import::imports;
use std::alloc::Global;
use wesl_json_form::BorrowedValue;
use wesl_json_read::{Reader, under, wrong};
use wesl_tree::{Error, TranslationUnit};

/// The unit that a value stands for: of form 2 where it has the key `form`, else of form 1.
///
/// Each distinct name gets one number, by first occurrence in document order. In form 2 a node has the span that stands
/// at `span`; one without that key has the empty span at 0, as each node has in form 1.
///
/// # Errors
///
/// A value that stands for no unit is refused with `BadTree`, which holds the JSON Pointer of a value that is wrong: of
/// an object with an unknown key or without a key that it needs, of an unknown word, of an empty name, of a number, of a
/// span that falls or is none, of a `form` other than 2, or of a value of another kind than its place asks for.
/// Otherwise it is refused for want of memory alone.
pub fn unit_of_value(alloc: Global, value: &BorrowedValue<'_>) -> Result<TranslationUnit, Error>
    ensures unit { IfOk result (λ u. IsUnitOf (borrowed_view value.now) (unit_view u)) }
    ensures place { IfErr result (λ e. IfPlace e (IsBrokenUnit (borrowed_view value.now))) }
    ensures unread { IfErr result (λ e. IfPlace e (λ _. IsNoUnit (borrowed_view value.now))) }
{
    read_unit(alloc, value.get("form").is_some(), value)
}

fn read_unit(
    alloc: Global,
    spans: bool,
    value: &BorrowedValue<'_>,
) -> Result<TranslationUnit, Error>
    requires { spans ≡ says_form (borrowed_view value.now) }
    ensures unit { IfOk result (λ u. IsUnitOf (borrowed_view value.now) (unit_view u)) }
    ensures place { IfErr result (λ e. IfPlace e (IsBrokenUnit (borrowed_view value.now))) }
{
    if !wesl_json_form::has_only_beside(
        value,
        spans,
        "form",
        &["imports", "directives", "declarations"],
    ) {
        return Err(wrong(alloc));
    }
    match check_form(alloc, value) {
        Ok(()) => read_lists(alloc, spans, value),
        Err(error) => Err(error),
    }
}

// What stands at `form` is 2, where the object has that key.
fn check_form(alloc: Global, value: &BorrowedValue<'_>) -> Result<(), Error>
    ensures ok { OnOk result (has_its_form (borrowed_view value.now) ≡ true) }
    ensures place { IfErr result (LocatesForm (borrowed_view value.now)) }
{
    let Some(form) = value.get("form") else {
        return Ok(());
    };
    match form.as_u64() {
        Some(2) => Ok(()),
        _ => Err(under(alloc, wrong(alloc), "form")),
    }
}

// The unit of an object with the keys of one, and with the form that it says.
fn read_lists(
    alloc: Global,
    spans: bool,
    value: &BorrowedValue<'_>,
) -> Result<TranslationUnit, Error>
    requires form { spans ≡ says_form (borrowed_view value.now) }
    requires keys { has_only (known_keys (beside spans second_form unit_row) (borrowed_view value.now)) (borrowed_view value.now) ≡ true }
    requires second { has_its_form (borrowed_view value.now) ≡ true }
    ensures unit { IfOk result (λ u. IsUnitOf (borrowed_view value.now) (unit_view u)) }
    ensures place { IfErr result (λ e. IfPlace e (IsBrokenUnit (borrowed_view value.now))) }
{
    let mut reader = Reader::new(alloc, spans);
    let imports = imports(&mut reader, value);
    let directives = directives(&mut reader, value);
    let declarations = declarations(&mut reader, value);
    match reader.end() {
        Ok(names) => {
            match TranslationUnit::from_parts(names, imports, directives, declarations) {
                Some(unit) => Ok(unit),
                None => Err(wrong(alloc)),
            }
        }
        Err(error) => Err(error),
    }
}
