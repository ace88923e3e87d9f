//! Numbers for names: each distinct text has one.
#![tactic(auto)]

mod interner;
mod laws;

pub use interner::Interner;
pub use laws::law_of_ids;
pub use wesl_tree_base::NameId;
