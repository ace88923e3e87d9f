//! Shader text judged, of whole units: what features leave of a unit that was read from text can be printed, but for attributes
//! that run on into the target of an assignment.
#![tactic(auto)]

mod laws;

pub use laws::law_of_left_units;
