//! What a path and a name are: numbers of an interner that the crate above holds.
ghost use Rattle.std.proofs.Common.{rules};

use crate::keyed::Identity;
use crate::symbols::{LookUp, Symbol};
pub use wesl_tree_base::NameId;

/// The number of a module path.
#[derive(Clone, Copy, PartialEq, Eq, Hash, Drop)]
pub struct PathId(pub usize);

impl Identity for PathId {
    ghost same = { Prim.search rules };
}

impl Identity for NameId {
    ghost same = { Prim.search rules };
}

impl Identity for Option<NameId> {
    ghost same = { Prim.search rules };
}

impl Identity for Symbol<PathId, NameId> {
    ghost same = { Prim.search rules };
}

impl Identity for LookUp<PathId, NameId> {
    ghost same = { Prim.search rules };
}
