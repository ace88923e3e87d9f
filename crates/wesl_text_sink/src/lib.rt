//! Shader text, made of the tokens that printers give.
#![tactic(auto)]

mod fault;
mod kind;
mod laws;
mod reading;
mod sink;
#[cfg(test)]
mod tests;
mod words;

pub use fault::PrintFault;
pub use kind::{Kind, Mark, symbol_text};
pub use laws::{law_of_layout, law_of_printing, law_of_slots};
pub use sink::{Gap, TextSink};
