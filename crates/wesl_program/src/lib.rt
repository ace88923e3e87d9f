//! From the bytes of a bundle to the line of its answer; and what `wesl` puts round that: reading, lines of refusals, and
//! writing.
#![tactic(auto)]

mod answer;
mod bundle_resolver;
mod bundle_value;
mod fault_line;
mod lines;
mod linking;
mod map_text;
mod modules;
mod naming;
mod path_text;
mod place;
mod refusal;
mod streams;
mod text_line;
mod validity;
mod whole_answer;

pub use answer::answer_head;
pub use bundle_resolver::BundleSources;
pub use bundle_value::bundle_of_bytes;
pub use fault_line::{named_line, placed_line};
pub use lines::{Line, memory_line, refusal_line};
pub use linking::{names, sources_of};
pub use naming::BundleMangler;
pub use place::Told;
pub use refusal::Refusal;
pub use streams::{NotedStream, ReadFault, read_whole, write_whole};
pub use whole_answer::answer_of_bytes;
