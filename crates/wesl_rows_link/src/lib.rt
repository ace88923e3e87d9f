//! Rows of calls around links as data: links of units and of symbol tables, resolvers, manglers, tables of names, and what
//! stands where memory was wanting. A row names a public call and holds its inputs; what is told of it is what the call
//! answers. `wesl_rows` reads the rows.
#![tactic(auto)]

mod calls;
mod chains;
mod links;
mod manglers;
mod names;
mod packages;
mod reasons;
mod resolvers;
mod tables;

use serde_json::Value;
use std::alloc::Global;
use std::cell::Cell;
use wesl_rows_base::{Row, line};

/// The line that is written for the text of a row, of which this crate has the call. Refused where something is noted of
/// it. Only texts go in and out, so that a crate above proves nothing of what a row holds.
pub fn line_of(alloc: Global, text: &str) -> Result<String, anyhow::Error> {
    let value = Value::from_str(alloc, text)?;
    let note = Cell::new("");
    let row = Row::new(alloc, &value, &note);
    line(row, calls::answered(row))
}
