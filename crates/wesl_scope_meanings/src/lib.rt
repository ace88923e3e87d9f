//! What each identifier of a module means by plain scoping (WGSL, "Declaration and Scope"), by one walk with a table of
//! open binders.
#![tactic(auto)]

mod alike;
mod keys;
mod reader;
mod sense;
mod senses;
mod whole;

pub use alike::spellings;
pub use keys::Key;
pub use sense::Sense;
pub use senses::{Senses, senses_of};
pub use whole::{Meanings, meanings_of};
