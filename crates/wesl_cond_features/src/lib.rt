//! Feature flags and their answers, and what becomes of the next branch of a chain (WESL, "ConditionalTranslation").
#![tactic(auto)]

mod chain;
mod features;

pub use chain::{Chain, Role};
pub use features::{Feature, Features, Truth};
