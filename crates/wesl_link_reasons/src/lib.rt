//! Why something is held in a link of symbol tables: for each symbol and each module a chain of nodes, in which each next one
//! is asked for by the one before.
#![tactic(auto)]

mod findings;
pub mod found;
mod laws;
mod map;
pub mod node;
mod reasons;
mod search;
mod trail;

pub use laws::{law_of_links, law_of_reasons};
pub use reasons::{Reasons, reasons_of};
