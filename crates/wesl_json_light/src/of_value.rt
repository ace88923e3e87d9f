//! Values in their light form.
ghost use Rattle.std.specs.Prelude.{◌≡◌, IfOk, None};
ghost use Rattle.serde_json.specs.Find.{as_i64, as_u64};
ghost use Rattle.serde_json.specs.View.{view, items_view as values_view, members_view as map_view, number_view as value_number};
ghost use Rattle.wesl_json_form.specs.View.{borrowed_view, items_view, members_view, number_view};

use bumpalo::Bump;
use serde_json::{Map, Value};
use std::alloc::{AllocError, Global};
use wesl_json_form::{BorrowedValue, Key, Members, Number};

/// The same value, its texts borrowed, its lists in the arena. Refused for want of memory alone.
#[cycle(of_value)]
pub fn borrowed_of_value<'a>(
    alloc: Global,
    value: &'a Value,
    arena: &'a Bump,
) -> Result<BorrowedValue<'a>, AllocError>
    ensures { IfOk result (λ v. borrowed_view v ≡ view value.now) }
{
    match value {
        Value::Null => Ok(BorrowedValue::Null),
        Value::Bool(truth) => Ok(BorrowedValue::Bool(*truth)),
        Value::Number(number) => Ok(BorrowedValue::Number(number_of(number))),
        Value::String(text) => Ok(BorrowedValue::String(text.as_str())),
        Value::Array(items) => Ok(BorrowedValue::Array(items_of(alloc, items, arena)?)),
        Value::Object(members) => Ok(BorrowedValue::Object(members_of(alloc, members, arena)?)),
    }
}

#[cycle(of_value)]
fn items_of<'a>(
    alloc: Global,
    values: &'a Vec<Value>,
    arena: &'a Bump,
) -> Result<&'a [BorrowedValue<'a>], AllocError>
    ensures { IfOk result (λ vs. items_view vs.now ≡ values_view values.now.items) }
{
    let mut items = Vec::with_capacity(alloc, values.len())?;
    for value in values {
        items.push(borrowed_of_value(alloc, value, arena)?)?;
    }
    let kept: &'a [BorrowedValue<'a>] = arena.try_alloc_slice_copy(items.as_slice())?;
    Ok(kept)
}

#[cycle(of_value)]
fn members_of<'a>(
    alloc: Global,
    map: &'a Map<String, Value>,
    arena: &'a Bump,
) -> Result<Members<'a>, AllocError>
    ensures { IfOk result (λ ms. members_view ms.now ≡ map_view map.now.entries) }
{
    let mut members = Vec::with_capacity(alloc, map.len())?;
    for (key, value) in map.iter() {
        let key = Key::new(arena, key.as_str())?;
        members.push((key, borrowed_of_value(alloc, value, arena)?))?;
    }
    let kept: Members<'a> = arena.try_alloc_slice_copy(members.as_slice())?;
    Ok(kept)
}

// The same number.
fn number_of(number: &serde_json::Number) -> Number
    ensures { number_view result ≡ value_number number.now }
{
    if let Some(whole) = number.as_u64() {
        Number::whole(whole)
    } else if let Some(whole) = number.as_i64() {
        Number::negative(whole)
    } else {
        float_of(number)
    }
}

// A number that is no whole one of 64 bits.
fn float_of(number: &serde_json::Number) -> Number
    requires below { as_i64 (value_number number.now) ≡ None }
    requires from_zero { as_u64 (value_number number.now) ≡ None }
    ensures { number_view result ≡ value_number number.now }
{
    let Some(float) = number.as_f64() else {
        unreachable!()
    };
    match Number::float(float) {
        Some(number) => number,
        None => unreachable!(),
    }
}
