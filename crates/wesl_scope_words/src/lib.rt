//! Words of variables that declarations of their module capture: the address space and the access mode in `var<..>` are
//! words of the tree, and a compiler reads them as names (WGSL, "Declaration and Scope").
#![tactic(auto)]

mod binders;
mod clash;
mod declarations;
mod laws;
mod rivals;
mod sayings;
mod statements;
mod whole;
mod words;

pub use clash::{Binder, WordClash};
pub use laws::law_of_word_clashes;
pub use whole::word_clashes;
