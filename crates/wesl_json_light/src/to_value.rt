//! Light values as values of their own.
ghost use Rattle.std.specs.Prelude.{◌≡◌, IfOk};
ghost use Rattle.serde_json.specs.View.{view, items_view as values_view, members_view as map_view, number_view as value_number};
ghost use Rattle.wesl_json_form.specs.View.{borrowed_view, items_view, members_view, number_view};

use serde_json::{Map, Value};
use std::alloc::{AllocError, Global};
use wesl_json_form::{BorrowedValue, Members, Number, NumberKind};

/// The same value with texts of its own. Refused for want of memory alone.
#[cycle(to_value)]
pub fn value_of_borrowed(alloc: Global, value: &BorrowedValue<'_>) -> Result<Value, AllocError>
    ensures { IfOk result (λ v. view v ≡ borrowed_view value.now) }
{
    match value {
        BorrowedValue::Null => Ok(Value::Null),
        BorrowedValue::Bool(truth) => Ok(Value::Bool(*truth)),
        BorrowedValue::Number(number) => Ok(Value::Number(number_of(number))),
        BorrowedValue::String(text) => Ok(Value::String(String::from_str(alloc, *text)?)),
        BorrowedValue::Array(items) => Ok(Value::Array(values_of(alloc, items)?)),
        BorrowedValue::Object(members) => Ok(Value::Object(map_of(alloc, members)?)),
    }
}

#[cycle(to_value)]
fn values_of(alloc: Global, items: &[BorrowedValue<'_>]) -> Result<Vec<Value>, AllocError>
    ensures { IfOk result (λ vs. values_view vs.items ≡ items_view items.now) }
{
    let mut values = Vec::with_capacity(alloc, items.len())?;
    for item in items {
        values.push(value_of_borrowed(alloc, item)?)?;
    }
    Ok(values)
}

#[cycle(to_value)]
fn map_of(alloc: Global, members: Members<'_>) -> Result<Map<String, Value>, AllocError>
    ensures { IfOk result (λ m. map_view m.entries ≡ members_view members.now) }
{
    let mut map = Map::new(alloc);
    for member in members {
        serde_json::put(
            &mut map,
            alloc,
            member.0.text(),
            value_of_borrowed(alloc, &member.1)?,
        )?;
    }
    Ok(map)
}

// The same number.
fn number_of(number: &Number) -> serde_json::Number
    ensures { value_number result ≡ number_view number.now }
{
    match number.kind {
        NumberKind::Whole(whole) => serde_json::Number::from(whole),
        NumberKind::Negative(whole) => serde_json::Number::from(whole),
        NumberKind::Float(float) => match serde_json::Number::from_f64(float) {
            Some(found) => found,
            None => unreachable!(),
        },
    }
}
