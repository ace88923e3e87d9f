//! Whether every identifier of nodes lies inside a table of names: the engine behind `TranslationUnit::from_parts`.
#![tactic(auto)]

mod bounds;
mod parts_bounds;
mod statement_bounds;

pub use parts_bounds::{directives_are_below, imports_are_below};
pub use statement_bounds::declarations_are_below;
