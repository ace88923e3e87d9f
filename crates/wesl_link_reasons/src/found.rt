//! A node that a search found.

use crate::node::Node;
use wesl_link_symbols::ids::{NameId, PathId};

/// A node that a search found, and where the one stands among those found that asked for it first.
#[derive(Clone, Copy, Drop)]
pub struct Found {
    pub node: Node<PathId, NameId>,
    /// None for what is there without being asked for.
    pub asker: Option<usize>,
}
