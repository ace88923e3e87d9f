//! Rows as data: of whole bundles, conditions, paths, source maps and built-in names, and those of `wesl_rows_link` and
//! `wesl_rows_tree`. Each line of standard input is a JSON object that names a row and a public call, and holds the call's
//! inputs; the line that is written for it holds what the call answers. The last line is their count.
#![tactic(auto)]

mod builtins;
mod calls;
mod conditions;
mod features;
mod mappers;
mod maps;
mod paths;
mod program;

use serde_json::Value;
use std::alloc::Global;
use std::cell::Cell;
use std::io::{BufRead, BufReader};
use wesl_rows_base::{Row, line};

/// The line that is written for the text of a row, by the crate that its key `of` names, or else by this one.
fn line_of(alloc: Global, text: &str) -> Result<String, anyhow::Error> {
    let value = Value::from_str(alloc, text)?;
    let note = Cell::new("");
    let row = Row::new(alloc, &value, &note);
    match row.text("of") {
        "trees" => wesl_rows_tree::line_of(alloc, text),
        "links" => wesl_rows_link::line_of(alloc, text),
        "faults" => wesl_rows_faults::line_of(alloc, text),
        _ => line(row, calls::answered(row)),
    }
}

/// Writes a line for the line of each row, and then how many there were.
fn main(rt: HostRuntime) -> Result<(), anyhow::Error> {
    let alloc = rt.alloc();
    let mut rows: usize = 0;
    for line in BufReader::new(alloc, rt.reader())?.lines(alloc) {
        println!(rt; "{}", line_of(alloc, &line?)?)?;
        rows = rows.wrapping_add(1);
    }
    println!(rt; "{rows} rows")?;
    Ok(())
}
