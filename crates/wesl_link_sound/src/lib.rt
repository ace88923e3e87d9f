//! What a link keeps of what it found, as a fact that has one proof at most.
//!
//! A struct's ghost field takes such facts alone, and that a symbol is reached has many proofs, one for each chain of imports
//! that leads to it. But whether it is reached is decided: a look-up asks no question twice and stays among what imports
//! ask for, so what is entered, reached and followed is a graph of finitely many nodes. So the truncated fact gives back
//! the fact itself.
#![tactic(auto)]

mod laws;

pub use laws::{law_of_reached, law_of_sound_links};
