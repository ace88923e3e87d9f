//! Laws over the clauses of units as JSON texts: when such a text shows places.
#![tactic(auto)]

mod laws;

pub use laws::law_of_spans;
