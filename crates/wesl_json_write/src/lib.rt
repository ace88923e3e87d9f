//! The values that units are written as, built of what a sink is told.
#![tactic(auto)]

mod unit;
mod values;

pub use unit::value_of_unit;
