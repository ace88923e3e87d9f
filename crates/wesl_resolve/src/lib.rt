//! Resolvers: where the modules of a link come from; and equality of packages. With manglers and source maps, which it
//! re-exports.
#![tactic(auto)]

mod package_index;
mod packages;
mod pkg_resolver;
mod preprocessor;
mod router;
mod standard;
mod virtual_resolver;

pub use packages::{equal_modules, equal_packages};
pub use pkg_resolver::PkgResolver;
pub use preprocessor::Preprocessor;
pub use router::Router;
pub use standard::StandardResolver;
pub use virtual_resolver::VirtualResolver;
pub use wesl_mangle::{
    CacheMangler, EscapeMangler, HashMangler, Mangler, NoMangler, PathHash, UnicodeMangler,
};
pub use wesl_resolve_base::{CodegenModule, CodegenPkg, NoResolver, Resolver, UnitText};
pub use wesl_source_map::{Asked, BasicSourceMap, NoSourceMap, SourceMap, SourceMapper, Start};
