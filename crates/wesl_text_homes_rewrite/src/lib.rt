//! Modules whose paths lead to the homes of libraries: what a module says of packages, written anew for a link in which each library
//! is there once.
//!
//! In a collection without a path a package is named as it stands, in whatever package the module lies. So an import of a package
//! becomes such a collection, and a path before a name an import, under a name that nothing else in the module has. What a module
//! says of its own package stays, and so does what leads where the linker takes it already.
#![tactic(auto)]

mod binders;
mod fresh;
mod imports;
mod memory;
mod order;
mod references;
mod turning;

pub use turning::redirect;
