//! The names that WGSL declares, as a list of what is built in.
#![tactic(auto)]

mod builtins;
mod names;

pub use builtins::{is_wgsl_name, wgsl_builtins};
pub use names::{CONSTRUCTORS, FUNCTIONS, OTHERS};
