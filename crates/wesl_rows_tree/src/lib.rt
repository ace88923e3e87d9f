//! Rows of calls on trees as data: their form, parts, copies, equality, visits, scopes and validity. A row names a public
//! call and holds its inputs; what is told of it is what the call answers. `wesl_rows` reads the rows.
#![tactic(auto)]

mod calls;
mod copies;
mod nodes;
mod scopes;
mod units;
mod validators;
mod visits;

use serde_json::Value;
use std::alloc::Global;
use std::cell::Cell;
use wesl_rows_base::{Row, line};

/// The line that is written for the text of a row, of which this crate has the call. Refused where something is noted of
/// it. Only texts go in and out, so that a crate above proves nothing of what a row holds.
pub fn line_of(alloc: Global, text: &str) -> Result<String, anyhow::Error> {
    let value = Value::from_str(alloc, text)?;
    let note = Cell::new("");
    let row = Row::new(alloc, &value, &note);
    line(row, calls::answered(row))
}
