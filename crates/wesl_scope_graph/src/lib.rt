//! Graphs of numbers: they grow by an edge, and what marked nodes reach is marked by a walk that looks at each edge
//! once.
#![tactic(auto)]

mod edges;
mod walk;

pub use edges::add_edge;
pub use walk::reach;
