//! What clashes in a linked unit: the printed names that read otherwise than they should, and the words of variables that its
//! declarations capture, each with what it stands for, what is read and what helps.
#![tactic(auto)]

mod clash;
mod clashing;
mod cures;
mod meanings;

pub use clash::{Clashes, Cure, Meaning, NameClash, Read};
pub use clashing::clashes_in;
