//! Nodes and arrows, each once.
ghost use Rattle.std.specs.Prelude.{◌≡◌, ⊤};
ghost use Rattle.std.proofs.Common.{rules};

use std::alloc::{AllocError, Global};
use std::collections::HashMap;
use wesl_explain_world::{NameId, Node, PathId};
use wesl_link_symbols::keyed::{self, Identity};

/// Nodes that are drawn.
#[derive(Drop)]
pub struct Nodes {
    held: HashMap<Node<PathId, NameId>, bool>,
}

impl Nodes {
    /// No nodes. They take no memory.
    pub fn new(alloc: Global) -> Nodes {
        Nodes {
            held: HashMap::new(alloc),
        }
    }

    /// Whether a node is there.
    pub fn has(&self, node: Node<PathId, NameId>) -> bool {
        keyed::value_at(&self.held, node).is_some()
    }

    /// Adds a node.
    pub fn put(&mut self, node: Node<PathId, NameId>) -> Result<(), AllocError> {
        keyed::put(&mut self.held, node, true)
    }
}

/// From what asks to what is asked for.
#[derive(Copy, PartialEq, Eq, Hash, Drop)]
pub struct Arrow {
    pub from: Node<PathId, NameId>,
    pub to: Node<PathId, NameId>,
}

// By hand, since a derived copy asks each part for one, which may be refused.
impl Clone for Arrow {
    ghost is_clone = { λ old new. new ≡ old };

    ghost is_infallible = { λ _. ⊤ };

    fn clone(&self) -> Result<Arrow, AllocError> {
        Ok(*self)
    }
}

impl Identity for Arrow {
    ghost same = { Prim.search rules };
}

/// Arrows in the order in which they came, and where each stands.
#[derive(Drop)]
pub struct Arrows {
    list: Vec<Arrow>,
    places: HashMap<Arrow, usize>,
}

impl Arrows {
    /// No arrows. They take no memory.
    pub fn new(alloc: Global) -> Arrows {
        Arrows {
            list: Vec::new(alloc),
            places: HashMap::new(alloc),
        }
    }

    /// Where an arrow stands, if it is there.
    pub fn place_of(&self, arrow: Arrow) -> Option<usize> {
        keyed::value_at(&self.places, arrow)
    }

    /// The arrows.
    pub fn into_list(self) -> Vec<Arrow> {
        let Arrows { list, places: _ } = self;
        list
    }

    /// Adds an arrow, unless it is there.
    pub fn put(&mut self, arrow: Arrow) -> Result<(), AllocError> {
        if self.place_of(arrow).is_some() {
            return Ok(());
        }
        keyed::put(&mut self.places, arrow, self.list.len())?;
        self.list.push(arrow)?;
        Ok(())
    }
}
