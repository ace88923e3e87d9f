//! Replacing the nodes of a syntax tree.
#![tactic(auto)]

mod holders;
mod replace;

pub use holders::Holder;
pub use wesl_visit_collect::{Kind, NodeRef, Replace, Rewrite};
