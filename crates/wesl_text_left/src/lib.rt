//! Shader text judged: what features leave of what was read from text can be printed.
#![tactic(auto)]

mod laws;

pub use laws::{law_of_left_formulas, law_of_left_nodes};
