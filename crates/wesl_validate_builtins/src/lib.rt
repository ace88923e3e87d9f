//! Names that are built in: those that a caller hands in, and those of the built-in types and words of WGSL.
#![tactic(auto)]

mod builtins;
mod types;

pub use builtins::Builtins;
pub use types::{BuiltinIdent, BuiltinType, SampledType, SamplerType, TextureType, VecSize};
