//! Units of shader text, read from its tokens.
#![tactic(auto)]

mod declaration;
mod declaration_start;
mod function;
mod structure;
mod table;
mod unit;

pub use unit::{MOST_LEVELS, read_unit};
