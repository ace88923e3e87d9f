//! Shader text linked: what is made of modules that were read from text can be printed.
#![tactic(auto)]

mod laws;

pub use laws::law_of_linked_text;
