//! Chains of who asked for what first, each from what is there without being asked for.

use crate::cut::{Cut, END, is_cut};
use std::alloc::{AllocError, Global};
use wesl_link_reasons::found::Found;
use wesl_link_reasons::node::Node;
use wesl_link_symbols::ids::{NameId, PathId};

/// Who asked for something, and who asked for that one: the first is there without being asked for.
pub type Chain = Cut<Node<PathId, NameId>>;

/// Of each node that was found how many steps the chain to it has, and where that step stands with which its beginning ends.
#[derive(Drop)]
pub struct Depths {
    lengths: Vec<usize>,
    heads: Vec<usize>,
}

impl Depths {
    /// Of no nodes. It takes no memory.
    pub fn new(alloc: Global) -> Depths {
        Depths {
            lengths: Vec::new(alloc),
            heads: Vec::new(alloc),
        }
    }

    /// Of these nodes, each of which stands behind the one that asked for it first.
    pub fn of(alloc: Global, nodes: &[Found]) -> Result<Depths, AllocError> {
        let mut depths = Depths::new(alloc);
        for (place, found) in nodes.iter().enumerate() {
            let (length, head) = depths.behind(place, found.asker);
            depths.lengths.push(length)?;
            depths.heads.push(head)?;
        }
        Ok(depths)
    }

    /// What is known of the chain to the node at a place, behind the one to who asked for it.
    fn behind(&self, place: usize, asker: Option<usize>) -> (usize, usize) {
        let Some(asker) = asker else {
            return (1, place);
        };
        let length = self.length(asker).saturating_add(1);
        if length <= END {
            (length, place)
        } else {
            (length, self.head(asker))
        }
    }

    /// How many steps the chain to the node at a place has.
    fn length(&self, place: usize) -> usize {
        match self.lengths.get(place) {
            Some(length) => *length,
            None => 0,
        }
    }

    /// Where the step stands with which the beginning of that chain ends.
    fn head(&self, place: usize) -> usize {
        match self.heads.get(place) {
            Some(head) => *head,
            None => place,
        }
    }

    /// Whether the chain to the node at a place is cut.
    pub fn is_cut(&self, place: usize) -> bool {
        is_cut(self.length(place))
    }

    /// The chain to the node at a place. These are the nodes of which the lengths are known.
    pub fn chain(&self, alloc: Global, nodes: &[Found], place: usize) -> Result<Chain, AllocError> {
        let length = self.length(place);
        if is_cut(length) {
            let first = steps_to(alloc, nodes, self.head(place), END)?;
            let last = steps_to(alloc, nodes, place, END)?;
            return Cut::between(first, &last, length);
        }
        Ok(Cut::whole(steps_to(alloc, nodes, place, length)?))
    }
}

/// The last steps of the chain to the node at a place, so many of them.
fn steps_to(
    alloc: Global,
    nodes: &[Found],
    place: usize,
    count: usize,
) -> Result<Vec<Node<PathId, NameId>>, AllocError> {
    let mut steps = Vec::with_capacity(alloc, count)?;
    let mut at = Some(place);
    for _step in 0..count {
        if let Some(found) = found_at(nodes, at) {
            steps.push(found.node)?;
            at = found.asker;
        }
    }
    steps.reverse();
    Ok(steps)
}

/// The node at a place.
fn found_at(nodes: &[Found], place: Option<usize>) -> Option<&Found> {
    nodes.get(place?)
}
