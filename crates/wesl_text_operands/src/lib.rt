//! Operands of shader text: how tightly expressions hold together, and which may be assigned to.
#![tactic(auto)]

mod class;
mod target;

pub use class::{Class, class_of, is_primary, is_tight, operator_class, takes_left, takes_right};
pub use target::{are_apart, is_target};
