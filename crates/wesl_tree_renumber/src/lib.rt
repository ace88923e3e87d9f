//! Other numbers for the identifiers of nodes, written in place.
//!
//! A node stays as it is but for the numbers of its identifiers, spans too. No memory is taken, and nothing fails.
#![tactic(auto)]

mod attribute;
mod declaration;
mod expression;
mod import;
mod renumbering;
mod statement;

pub use renumbering::Renumbering;
