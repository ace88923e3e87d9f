//! What the number of a path stands for.
ghost use Rattle.std.proofs.Common.{rules};

use wesl_link_symbols::ids::{NameId, PathId};
use wesl_link_symbols::keyed::Identity;

/// A path by numbers: that of the path before its last part, and that of this part.
#[derive(Clone, Copy, PartialEq, Eq, Hash, Drop)]
pub enum PathNode {
    /// The root of the package in which paths are read.
    Root,
    /// The root of the package that has this name, which has no slash, in the package with that root.
    Package(PathId, NameId),
    /// The path with this component behind the second path; the first is the root of its package.
    Under(PathId, PathId, NameId),
}

impl Identity for PathNode {
    ghost same = { Prim.search rules };
}
