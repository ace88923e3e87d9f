//! Printing units as JSON, to any sink, and as texts.
#![tactic(auto)]

mod directive;
mod import;
mod text;
mod unit;

pub use directive::print_directives;
pub use import::print_imports;
pub use text::print_text;
pub use unit::{print_unit, print_unit_to};
