//! Values that are handed on along the edges of a graph: each node has those of the nodes from which it is reached. And the
//! walk by which they are handed on.
#![tactic(auto)]

mod handing;
mod turning;
mod walking;

pub use handing::{all_values, least_values, set_all_first, value_of};
pub use turning::turned;
pub use walking::{clear, is_marked, set_mark, walk};
