//! Copies of nodes: their `try_clone`, and the engine behind it and behind copies whose identifiers have other numbers.
//!
//! A copy is the same as its original but for the numbers it is given, spans too. It is refused for want of memory
//! alone, which is noted on the way and told at the end.
#![tactic(auto)]

mod attribute;
mod clones;
mod copying;
mod declaration;
mod expression;
mod import;
mod statement;

pub use clones::{Node, Placed, TryClone, unless_refused};
pub use copying::Copying;
