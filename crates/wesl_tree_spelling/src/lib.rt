//! Whether two lists of nodes are the same once each identifier is replaced by its name, or once each is left without a
//! name and spans count.
#![tactic(auto)]

mod attribute;
mod declaration;
mod expression;
mod global;
mod import;
mod spelling;
mod statement;
mod tables;

pub use spelling::{same_declarations, same_directives, same_imports};
pub use tables::Tables;
