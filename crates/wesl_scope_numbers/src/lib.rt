//! The numbers that plain scoping (WGSL, "Declaration and Scope") gives to a module's identifiers, how a module gets
//! other numbers, and whether a module's names, read by plain scoping, mean what its numbers say: the engines behind
//! `retarget_idents` and `names_clash`.
#![tactic(auto)]

mod agreed;
mod by_meaning;
mod judge;
mod laws;
mod number_laws;
mod numbers;
mod unit;
mod whole;

pub use by_meaning::numbers_by_meaning;
pub use laws::{law_of_canonical_numbers, law_of_faith};
pub use number_laws::{law_of_leaves, law_of_numbers, law_of_renumbering};
pub use unit::renumber;
pub use whole::{Readings, readings_of};
