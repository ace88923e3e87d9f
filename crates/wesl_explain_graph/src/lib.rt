//! A link as a graph for Graphviz: its modules with who loads them, or its declarations with who refers to them. Of a refused link
//! what was loaded until then, with what is faulty and who asks for it marked.
#![tactic(auto)]

mod asked;
mod declarations;
mod drawing;
mod graph;
mod marks;
mod modules;
mod nodes;
mod ways;

pub use graph::{Graph, graph_of};
