//! From trees to shader text: attributes and statements, printed into a sink of tokens.
#![tactic(auto)]

mod attribute;
mod simple;
mod statement;
mod variable;
mod wildcard;

pub use attribute::{print_attributes, print_diagnostic, print_words};
pub use statement::{print_body, print_statement};
pub use variable::{print_assertion, print_variable};
