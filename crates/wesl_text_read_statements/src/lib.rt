//! Statements and bodies of shader text, read from its tokens.
#![tactic(auto)]

mod behind;
mod part;
mod selector;
mod statement;

pub use statement::{read_bare_statement, read_body, read_statement};
