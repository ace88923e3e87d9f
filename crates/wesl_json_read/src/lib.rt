//! Reading the parts of a tree from their JSON form: members, names, expressions and types.
#![tactic(auto)]

mod attribute;
mod expression;
mod fields;
mod leaves;
mod numbering;
mod reader;
mod words;

pub use fields::{under, wrong};
pub use leaves::TextKind;
pub use numbering::Numbering;
pub use reader::{Fault, Reader};
