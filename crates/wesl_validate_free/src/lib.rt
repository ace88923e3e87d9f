//! The names that a module leaves free: those of references that nothing in it binds and that are not built in (WGSL,
//! "Declaration and Scope"), in document order and each once. And each of these references, with its place.
#![tactic(auto)]

mod free;
mod gather;
mod laws;
mod uses;

pub use free::free_names;
pub use laws::{law_of_free_names, law_of_free_uses};
pub use uses::{FreeUse, free_uses};
