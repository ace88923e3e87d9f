//! Which packages of a project are one library, and under which name each library is linked: its home. A library that several
//! packages use, a diamond, is linked once.
#![tactic(auto)]

mod chain;
mod homes;
mod libraries;
mod sorting;

pub use chain::{Chain, UsedPackage};
pub use libraries::{Libraries, PartedFolder, parted_folders};
