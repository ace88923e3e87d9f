//! Hops of look-ups from module to module that walks came by, and how each ends: what a walk came by is not walked again.
#![tactic(auto)]

mod ends;

pub use ends::{Ending, Ends, question};
