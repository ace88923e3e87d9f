//! Plain scoping by one walk, with a table of open binders and what to take back when a block closes (WGSL, "Declaration
//! and Scope").
#![tactic(auto)]

mod laws;
mod table;

pub use laws::law_of_open_binders;
pub use table::{Change, OpenBinders};
