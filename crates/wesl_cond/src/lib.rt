//! Conditional translation of whole modules (WESL, "ConditionalTranslation"), over the engine `wesl_cond_unit`; and what
//! features leave of one formula, over `wesl_cond_chains`.
#![tactic(auto)]

mod alive;
mod conditioned;
mod equality;
mod evaluate;
pub mod laws;
mod unit;

pub use alive::{alive_together, flag_count};
pub use conditioned::condition;
pub use equality::{equal_feature, equal_features};
pub use evaluate::eval_attr;
pub use unit::run;
pub use wesl_cond_features::{Feature, Features};
