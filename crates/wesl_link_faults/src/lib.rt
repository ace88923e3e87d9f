//! All faults of a link of symbol tables at once, with who asks for each.
#![tactic(auto)]

mod laws;
mod loading;
pub mod open;

pub use laws::{law_of_askers, law_of_first, law_of_none, worlds_of_numbers};
pub use open::open_table;
