//! From the bytes of a bundle of shader texts to the line of its linked text.
//!
//! The bundle has the form of one of trees, but that each unit is a JSON text: the shader text of its module. A text is read
//! when its module is asked for.
#![tactic(auto)]

mod answer;
mod bytes;
mod lines;
mod linking;
mod request;
mod sources;
mod validity;

pub use bytes::line_of_texts;
pub use sources::TextSources;
