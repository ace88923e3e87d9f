//! Chains of who asked for what, and ways of look-ups with the rings to which they lead, without their middle where they are long;
//! and names of modules that are asked for.
#![tactic(auto)]

mod asked;
mod chains;
mod cut;
mod way;

pub use asked::Asked;
pub use chains::{Chain, Depths};
pub use cut::Cut;
pub use way::{Rings, Way, no_way, whoever_asks};
