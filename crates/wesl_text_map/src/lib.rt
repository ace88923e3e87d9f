//! The source map of a linked text, revision 3 (ECMA-426): which places of it stand for which places of the modules.
//!
//! Each declaration of the unit that the linked text says, when it is read again, is laid beside the one of a module that it comes from:
//! their identifiers and nodes are in step, and each pair of them is a mapping. All of it is proved safe and to end; which places are
//! told no clause says.
#![tactic(auto)]

mod finding;
mod naming;
mod nodes;
mod pairs;
mod reading;
mod source_map;

pub use naming::seen_from;
pub use source_map::{MapOrigin, MapText, source_map_of};
