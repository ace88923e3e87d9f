//! What nodes are written as: their values by those of their parts, the words of operators, which spans and names stand in them.
#![tactic(auto)]

mod shown;
mod words;

pub use shown::{is_shown, kind_word, spelling, truth_word};
pub use words::{access_word, assignment_word, binary_word, space_word, unary_word};
