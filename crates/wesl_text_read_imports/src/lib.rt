//! Imports and directives of shader text, read from its tokens.
#![tactic(auto)]

mod directive;
mod directive_word;
mod import;
mod list;
mod path;

pub use directive::read_directive;
pub use directive_word::begins_directive;
pub use import::read_import;
pub use list::next_item;
