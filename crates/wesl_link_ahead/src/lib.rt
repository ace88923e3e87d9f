//! Paths that a link enters, found as its modules come: what was taken is not taken again when more modules are there. Each path
//! that is told is entered; that all are told no clause says.
#![tactic(auto)]

mod ahead;
mod keys;

pub use ahead::{Ahead, Linking};
