//! Reading statements from their JSON form, and what stands in modules and in functions.
#![tactic(auto)]

mod declared;
mod selector;
mod simple;
mod statement;
mod words;

pub use declared::{Declared, read_declared};
pub use statement::body;
pub use words::{DeclaredWord, ValueWord, declared_word};
