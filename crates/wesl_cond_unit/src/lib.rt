//! The engine of conditional translation: judges the conditions of a unit, and leaves what features leave of it.
#![tactic(auto)]

mod checks;
mod declarations;
mod judge;
mod laws;
mod statements;
mod unit;

pub use laws::law_of_repetition;
pub use unit::{check, resolve};
