//! Shader text read: the tree that tokens say.
#![tactic(auto)]

mod laws;
mod rows;

pub use laws::{law_of_reading, law_of_units};
pub use rows::rows_of_reading;
