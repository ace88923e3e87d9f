//! The texts of the names and paths of a link, the names and paths that are near to one, and which items of modules lead to what
//! is asked for.
#![tactic(auto)]

mod below;
mod letters;
mod near;
mod texts;

pub use below::Below;
pub use near::{Near, NearNames, Wanted, only_declared};
pub use texts::Texts;
