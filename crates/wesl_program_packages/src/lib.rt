//! The packages of a bundle by their names: which value stands at a path that begins in one.
#![tactic(auto)]

mod finding;
mod first;
mod held;
mod holding;
mod missing;

pub use held::HeldPackages;
