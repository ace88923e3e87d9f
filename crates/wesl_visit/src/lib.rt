//! Visits and rewriting of the nodes of a syntax tree. The engines are `wesl_visit_collect` and `wesl_visit_rewrite`.
#![tactic(auto)]

mod collectors;
mod visits;

pub use collectors::Collect;
pub use visits::{Visit, Visitor};
pub use wesl_visit_rewrite::{Holder, Kind, NodeRef, Replace, Rewrite};
