//! Parentheses that a text of nodes needs, put in place.
//!
//! A tree that was read has them. One that was made may have an operand that its operation does not take without parentheses, or
//! comparisons that would be read as a template list.
#![tactic(auto)]

mod attribute;
mod declaration;
mod expression;
mod guard;
mod import;
pub mod laws;
mod operand;
mod statement;
mod unit;

pub use guard::Guard;
pub use unit::put_parentheses;
