//! Units that are put together of nodes of many modules.
#![tactic(auto)]

mod denotation;
mod directives;
mod laws;
mod numbers;
mod paths;
mod thinning;
mod unit;

pub use denotation::{Denotation, Printing};
pub use directives::{Directives, word_denotations};
pub use laws::law_of_meanings;
pub use thinning::thinned_directives;
pub use unit::linked_unit;
