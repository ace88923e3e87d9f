//! Expressions, types and calls of shader text, read from its tokens.
#![tactic(auto)]

mod attribute;
mod attribute_word;
mod chain;
mod depth;
mod expression;
mod leaves;
mod list;
mod operators;
mod path;
mod reader;
mod within;
mod word_list;
mod words;

pub use reader::{Expected, Fault, Reader};
pub use within::Within;
pub use words::is_free;
