//! What resolvers are, and what they are made of: units as texts, packages, refusals.
#![tactic(auto)]

mod boxes;
mod no_resolver;
mod packages;
mod refusals;
mod resolver;
mod suffixes;
mod unit_text;

pub use no_resolver::NoResolver;
pub use packages::{CodegenModule, CodegenPkg, module_at};
pub use refusals::{copied, not_found, refused, refused_by};
pub use resolver::Resolver;
pub use suffixes::{depth, module_after, name_after, source_after};
pub use unit_text::{UnitText, read_module};
