//! What is asked of a module's tree and done to it by scopes: entry points, new numbers by meaning, and stripping; and whether
//! its names, printed and read again, would mean something else than its numbers say (`wesl_scope_numbers` does the work). With
//! what clashes, where identifiers stand in the source, which names are free, the validators and built-in names, which it
//! re-exports.
#![tactic(auto)]

mod clash;
mod entry_points;
pub mod laws;
mod strip;
mod syntax_util;

pub use clash::names_clash;
pub use strip::strip_except;
pub use syntax_util::SyntaxUtil;
pub use wesl_scope_clashes::{Binder, Clash, Reading, clashes};
pub use wesl_scope_spans::identifier_spans;
pub use wesl_tree::{AccessMode, AddressSpace};
pub use wesl_validate::{validate_wesl, validate_wgsl};
pub use wesl_validate_builtins::{
    BuiltinIdent, BuiltinType, Builtins, SampledType, SamplerType, TextureType, VecSize,
};
pub use wesl_validate_free::{FreeUse, free_names, free_uses};
