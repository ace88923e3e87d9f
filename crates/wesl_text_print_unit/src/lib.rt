//! From trees to shader text: declarations, imports, directives and whole units, printed into a sink of tokens.
#![tactic(auto)]

mod declaration;
mod import;
mod unit;

pub use declaration::print_declaration;
pub use import::{print_directive, print_import};
pub use unit::print_unit;
