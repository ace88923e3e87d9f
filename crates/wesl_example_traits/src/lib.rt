//! Types of a caller's own that are what the linker asks for: a mangler, numbers of items, text forms, a visitor, a
//! rewriter and a source map.
#![tactic(auto)]

mod hash;
mod mangler;
mod map;
mod rewriter;
mod texts;
mod visitor;

pub use hash::ByBytes;
pub use mangler::Prefixed;
pub use map::Both;
pub use rewriter::drop_paths;
pub use texts::{Bounded, Declarations};
pub use visitor::count_uses;
