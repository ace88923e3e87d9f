//! The identifiers of a module in document order, each with how it stands, its place in that order and its block; and the
//! one walk over a module that finds them, which tells any handler what it meets.
#![tactic(auto)]

mod attributes;
mod beside;
mod collector;
mod declarations;
mod expressions;
mod functions;
mod handler;
mod here;
mod imports;
mod laws;
mod occurrence;
mod paths;
mod statements;
mod unit;
mod walk;
mod whole;

pub use beside::{FoundBeside, occurrences_beside};
pub use handler::Handler;
pub use here::Here;
pub use laws::{law_of_events, law_of_occurrences, law_of_pieces, law_of_ways};
pub use occurrence::{Occurrence, Standing};
pub use unit::{Walked, walk_unit};
pub use whole::{Identifiers, occurrences, words_of};
