//! Source maps: where the names and the modules of a linked unit come from, and a resolver and mangler that records them.
#![tactic(auto)]

mod asked;
mod basic;
mod mapper;

pub use asked::{Asked, Start};
pub use basic::BasicSourceMap;
pub use mapper::SourceMapper;
pub use wesl_source_map_entries::{NoSourceMap, SourceMap};
