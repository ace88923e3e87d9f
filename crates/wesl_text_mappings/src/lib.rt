//! The text of source maps, revision 3 (ECMA-426): numbers in base64 VLQ, lines and columns as maps count them, and the text of mappings.
#![tactic(auto)]

mod mappings;
mod positions;
mod vlq;

pub use mappings::{Mapping, mappings_text};
pub use positions::{Position, positions_of};
