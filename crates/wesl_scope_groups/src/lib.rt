//! Groups of the nodes of a graph that reach each other.
#![tactic(auto)]

mod groups;
mod order;

pub use groups::groups_of;
