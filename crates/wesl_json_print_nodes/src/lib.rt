//! Printing nodes as JSON, to any sink: the members of each object come in the order of their keys' bytes.
#![tactic(auto)]

mod attribute;
mod declaration;
mod expression;
mod printer;
mod sink;
mod statement;

pub use attribute::{print_attributes, print_names};
pub use declaration::print_declarations;
pub use printer::Printer;
pub use sink::Sink;
