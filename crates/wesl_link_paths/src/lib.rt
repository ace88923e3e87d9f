//! Numbers for the paths of modules: each is kept as its last part behind the number of the path before it, so that a path
//! costs what is new in it.
#![tactic(auto)]

mod node;
mod numbers;
mod texts;

pub use numbers::PathNumbers;
pub use texts::PathTexts;
