//! The modules of a link as they were read, and where in them stands what asks for something.
#![tactic(auto)]

mod asking;
mod modules;

pub use asking::{identifier_of, span_of};
pub use modules::{ReadModule, ReadModules};
