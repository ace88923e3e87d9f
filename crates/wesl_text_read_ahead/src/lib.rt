//! What comes ahead of a reader of shader text: behind attributes, and by the first words and signs.
#![tactic(auto)]

mod attributes;
mod first;
mod skips;

pub use attributes::behind_attributes;
pub use first::{sign_begins, word_begins, word_of, words_begin};
pub use skips::{begins_word, skip_open, skip_word};
