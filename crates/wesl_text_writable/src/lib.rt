//! Shader text printed: the tokens that are printed for a tree say it.
#![tactic(auto)]

mod laws;

pub use laws::{law_of_fewest, law_of_texts_apart, law_of_writing};
