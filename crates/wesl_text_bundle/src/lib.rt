//! The bundle of the modules that a link of a project read, as `wesl-link` and `wesl-explain` read it, and the names that are built in.
//!
//! Each call is proved safe and ends. What a bundle is that is read back, and that of it the same is linked, no clause says.
#![tactic(auto)]

mod builtins;
mod bundle;
mod modules;
mod nesting;
mod options;
mod packages;
mod units;

pub use builtins::{builtins_value, read_builtins, wgsl_value};
pub use bundle::bundle_of;
pub use units::{PlacedName, PlacedNames, placed_names};
