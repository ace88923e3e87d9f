//! The paths of numbers, once each that is wanted has one.
//!
//! No type here names one of those that give numbers: a library above that hands these out would carry what is stated of
//! them.
ghost use Rattle.std.proofs.Props.{props};
ghost use Rattle.std.specs.Prelude.{◌≡◌, ◌<◌, ℕ, [], false, length, map, All, IfSome, IfNone, Some, slice_get, string_bytes};
ghost use Rattle.wesl_tree_names.specs.Path.{path_view, is_relative, push, extend};
ghost use Rattle.wesl_tree_interner.specs.Different.{AreDifferent};
ghost use Rattle.wesl_link_paths.specs.Nodes.{AreWhole, paths_by};

use crate::node::PathNode;
use wesl_link_symbols::ids::{NameId, PathId};
use wesl_tree_names::{ModulePath, PathOrigin};

/// The paths of a link by their numbers, none of them relative.
#[derive(Drop)]
pub struct PathTexts {
    pub(crate) parts: Vec<String>,
    pub(crate) nodes: Vec<PathNode>,
    pub ghost whole: { AreWhole (map string_bytes parts.items) nodes.items } by { Prim.hlevel props },
    pub ghost different: { AreDifferent (paths_by (map string_bytes parts.items) nodes.items) },
    pub ghost asked: { All (λ p. is_relative p ≡ false) (paths_by (map string_bytes parts.items) nodes.items) },
}
