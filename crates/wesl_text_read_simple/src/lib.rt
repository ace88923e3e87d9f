//! Statements of shader text that end with `;`, and declarations of variables, read from tokens.
#![tactic(auto)]

mod assertion;
mod expressed;
mod kind;
mod part;
mod plain;
mod simple;
mod starts;
mod variable;

pub use assertion::read_global_assertion;
pub use kind::read_kind;
pub use part::read_part;
pub use plain::optional_expression;
pub use simple::read_simple;
pub use starts::{PartStart, SimpleStart, StatementStart, statement_start};
pub use variable::read_global_variable;
