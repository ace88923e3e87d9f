//! Which choices of feature flags keep the node at a position of a module (WESL, "ConditionalTranslation").
#![tactic(auto)]

mod declarations;
mod lists;
mod lookup;
mod statements;
mod unit;

pub use unit::position_set;
