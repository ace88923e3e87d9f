//! Shader text under other names, and of other parts: a unit that is writable stays so where its identifiers get names and where
//! references lose their paths; and a unit is writable exactly where each of its parts is.
#![tactic(auto)]

mod laws;

pub use laws::{law_of_joining, law_of_respelling};
