//! Validators: whether a module is one that a shader can be made of (WGSL, "Declaration and Scope").
#![tactic(auto)]

mod wesl;
mod wgsl;

pub use wesl::validate_wesl;
pub use wgsl::validate_wgsl;
