//! Whether one of the imports of a name that are seen from a place has another target, or is published.
#![tactic(auto)]

pub mod targets;
