//! What source maps hold: the items of names and what is said of modules, their copies, and how a map is asked.
#![tactic(auto)]

mod decl_table;
mod entries;
mod map;
mod refusals;
mod source_table;
mod texts;

pub use entries::Entries;
pub use map::{NoSourceMap, SourceMap};
pub use refusals::{as_resolved, unless_memory};
pub use texts::text_of;
