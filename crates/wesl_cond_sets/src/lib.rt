//! Sets of choices that have numbers, each kept once: equal sets of several numbers take the room of one.
#![tactic(auto)]

mod sets;

pub use sets::SetNumbers;
