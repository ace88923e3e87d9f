//! Which declarations of a module are kept: those named, those without a name, and what these reach: the engine behind
//! `strip_except`.
#![tactic(auto)]

mod kept;
mod steps;

pub use kept::kept_declarations;
