//! Shader text read and said: what tokens are read as, they say.
#![tactic(auto)]

mod laws;

pub use laws::{law_of_soundness, law_of_texts};
