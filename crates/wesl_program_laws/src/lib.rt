//! Laws over the clauses of lines: what a link promises of its modules, and when a line tells of no clash.
#![tactic(auto)]

mod laws;

pub use laws::{law_of_bundle_links, law_of_escape_lines, law_of_found_links};
