//! Rows of what inputs as data cannot say: readers and writers that fail, resolvers of a caller's own, what refusals tell
//! beside their errors, nodes with spans or nameless identifiers, units that are deeper than JSON, errors that stand for want
//! of memory, and what the map of a link knows. `wesl_rows` reads the rows.
#![tactic(auto)]

mod asks;
mod calls;
mod deep;
mod endless;
mod errors;
mod maps;
mod names;
mod nodes;
mod refusals;
mod resolvers;
mod shown;
mod streams;

use serde_json::Value;
use std::alloc::Global;
use std::cell::Cell;
use wesl_rows_base::{Row, line};

/// The line that is written for the text of a row, of which this crate has the call. Refused where something is noted of
/// it. Only texts go in and out, so that a crate above proves nothing of what a row holds.
pub fn line_of(alloc: Global, text: &str) -> Result<String, anyhow::Error> {
    let value = Value::from_str(alloc, text)?;
    let note = Cell::new("");
    let row = Row::new(alloc, &value, &note);
    line(row, calls::answered(row))
}
