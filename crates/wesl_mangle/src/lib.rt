//! Manglers: what an item of a module is called in a linked unit (WESL, "NameMangling").
#![tactic(auto)]

mod cache;
mod escape;
mod hash;
pub mod laws;
mod unicode;

pub use cache::CacheMangler;
pub use escape::EscapeMangler;
pub use hash::{HashMangler, PathHash};
pub use unicode::UnicodeMangler;
pub use wesl_mangle_forms::{Mangler, NoMangler};
