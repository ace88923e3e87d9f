//! Reading units from their JSON form: imports, directives and declarations.
#![tactic(auto)]

mod declaration;
mod directive;
mod import;
mod unit;
mod words;

pub use unit::unit_of_value;
