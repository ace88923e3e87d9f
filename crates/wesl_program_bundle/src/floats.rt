//! Numbers that are not read as whole ones.
ghost use Rattle.std.specs.Prelude.{◌≡◌, true, false, OnOk, IfErr};
ghost use Rattle.serde_json.specs.View.{view, items_view, members_view};
ghost use Rattle.serde_json.specs.Data.{array, object};
ghost use Rattle.serde_json.specs.Written.{has_float, items_have_float, members_have_float};
ghost use Rattle.wesl_json_form.specs.View.{borrowed_view, items_view as borrowed_items_view, members_view as borrowed_members_view};
ghost use Rattle.wesl_program_bundle.specs.Forms.{HasFloatAt};
ghost use Rattle.wesl_program_bundle.specs.Broken.{IfPlace};

use crate::members::{BundleError, under, under_index, wrong};
use serde_json::{Map, Value};
use std::alloc::Global;
use wesl_json_form::{BorrowedValue, Members};
use wesl_json_light::value_of_borrowed;

/// Refuses a value in which a number is not read as a whole one, at its place.
pub(crate) fn check_whole(alloc: Global, value: &BorrowedValue<'_>) -> Result<(), BundleError>
    ensures ok { OnOk result (has_float (borrowed_view value.now) ≡ false) }
    ensures place { IfErr result (λ e. IfPlace e (HasFloatAt (borrowed_view value.now))) }
{
    if is_whole(value) {
        return Ok(());
    }
    match value_of_borrowed(alloc, value) {
        Ok(owned) => check_value(alloc, &owned),
        Err(_) => Err(BundleError::Memory),
    }
}

// Whether it is a text, as most members are: no number stands in it.
fn is_text(value: &BorrowedValue<'_>) -> bool
    ensures { result ≡ true → has_float (borrowed_view value.now) ≡ false }
{
    matches!(value, BorrowedValue::String(_))
}

// Whether each number that stands in it is read as a whole one. A member counts that a later one with its key replaces, so
// a value may have no such number and yet be none of these.
#[cycle(whole)]
fn is_whole(value: &BorrowedValue<'_>) -> bool
    ensures { result ≡ true → has_float (borrowed_view value.now) ≡ false }
{
    match value {
        BorrowedValue::Number(number) => !number.is_f64(),
        BorrowedValue::Array(items) => are_whole(items),
        BorrowedValue::Object(members) => have_whole(members),
        _ => true,
    }
}

#[cycle(whole)]
fn are_whole(items: &[BorrowedValue<'_>]) -> bool
    ensures { result ≡ true → items_have_float (borrowed_items_view items.now) ≡ false }
{
    for item in items {
        if !is_whole(item) {
            return false;
        }
    }
    true
}

#[cycle(whole)]
fn have_whole(members: Members<'_>) -> bool
    ensures { result ≡ true → members_have_float (borrowed_members_view members.now) ≡ false }
{
    for member in members {
        if !is_text(&member.1) && !is_whole(&member.1) {
            return false;
        }
    }
    true
}

// The place of such a number.
#[cycle(floats)]
fn check_value(alloc: Global, value: &Value) -> Result<(), BundleError>
    ensures ok { OnOk result (has_float (view value.now) ≡ false) }
    ensures place { IfErr result (λ e. IfPlace e (HasFloatAt (view value.now))) }
{
    match value {
        Value::Number(number) if number.is_f64() => Err(wrong(alloc)),
        Value::Array(items) => check_items(alloc, items),
        Value::Object(members) => check_members(alloc, members),
        _ => Ok(()),
    }
}

#[cycle(floats)]
fn check_items(alloc: Global, items: &[Value]) -> Result<(), BundleError>
    ensures ok { OnOk result (items_have_float (items_view items.now) ≡ false) }
    ensures place { IfErr result (λ e. IfPlace e (HasFloatAt (array (items_view items.now)))) }
{
    for (index, item) in items.iter().enumerate() {
        if let Err(error) = check_value(alloc, item) {
            return Err(under_index(alloc, error, index));
        }
    }
    Ok(())
}

#[cycle(floats)]
fn check_members(alloc: Global, members: &Map<String, Value>) -> Result<(), BundleError>
    ensures ok { OnOk result (members_have_float (members_view members.now.entries) ≡ false) }
    ensures place { IfErr result (λ e. IfPlace e (HasFloatAt (object (members_view members.now.entries)))) }
{
    for (key, value) in members.iter() {
        if let Err(error) = check_value(alloc, value) {
            return Err(under(alloc, error, key.as_str()));
        }
    }
    Ok(())
}
