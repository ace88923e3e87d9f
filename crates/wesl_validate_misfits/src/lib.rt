//! Calls of a module that fit nothing of what their aliases end in, each with the place of the name that is called (WGSL,
//! "Function Calls").
#![tactic(auto)]

mod calls;
mod laws;
mod placed;

pub use laws::law_of_places;
pub use placed::{PlacedMisfit, number_of, placed_misfits};
