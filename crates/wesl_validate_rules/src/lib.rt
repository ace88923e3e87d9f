//! What a module must be to be taken as a shader: that names are defined and distinct, that no declaration reaches
//! itself, and that calls fit (WGSL, "Declaration and Scope" and "Function Calls"). And laws of these definitions, and what
//! finds the faults of the first three kinds: parts of `validate_wesl`. A ring is found in a graph of numbers, of which each
//! lists those that it leads to.
#![tactic(auto)]

mod distinct;
mod graph;
mod imports;
mod known;
mod laws;
mod plain;
mod rings;
mod steps;
mod unknown;

pub use distinct::{duplicate, name_of};
pub use graph::ring;
pub use known::known_numbers;
pub use laws::{law_of_faults, law_of_graphs};
pub use plain::plain_numbers;
pub use rings::cycle;
pub use steps::steps_of;
pub use unknown::{is_unknown, undefined};
