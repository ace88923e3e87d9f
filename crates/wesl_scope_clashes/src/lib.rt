//! Where the printed names of a module, read by plain scoping (WGSL, "Declaration and Scope"), mean something else than its
//! numbers say: the places at which names clash.
#![tactic(auto)]

mod binders;
mod bound;
mod clash;
mod laws;
mod reading;
mod sightings;
mod whole;

pub use clash::{Binder, Clash, Reading};
pub use laws::law_of_clashes;
pub use whole::clashes;
