//! What a bundle says, and where a value that is none breaks its form. The units of its modules are not read yet.
#![tactic(auto)]

mod builtins;
mod bundle;
mod features;
mod floats;
mod joined;
mod members;
mod options;
mod packages;

pub use builtins::BuiltinNames;
pub use bundle::{Bundle, BundleModule, read_bundle};
pub use features::law_of_answers;
pub use members::BundleError;
pub use options::{Naming, Options};
pub use packages::{Package, PackageModule};
