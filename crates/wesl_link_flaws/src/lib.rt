//! All that is wrong in a world of modules that is given: a search that takes each entered path and each reached symbol once, with
//! who asks for each.
#![tactic(auto)]

pub mod absence;
pub mod asker;
mod clash;
pub mod given;
mod hops;
pub mod keys;
mod search;
pub mod told;
pub mod world;
