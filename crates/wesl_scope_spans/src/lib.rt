//! Where the identifiers of a module stand in its source: each at the span of the innermost node round it.
#![tactic(auto)]

mod attributes;
mod declarations;
mod expressions;
mod imports;
mod laws;
mod places;
mod statements;
mod whole;

pub use laws::law_of_spans;
pub use whole::identifier_spans;
