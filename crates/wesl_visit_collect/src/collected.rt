//! What a walk has collected. That memory was wanting is told at the end, so that the walk looks at nothing on its way.
ghost use Rattle.std.specs.Prelude.{IfErr, IfOk, ◌≡◌};
ghost use Rattle.wesl_tree_names.specs.declared.errors.Error as error;
ghost use Rattle.wesl_visit_collect.specs.Nodes.{node_tree};
ghost use Rattle.wesl_visit_collect.specs.Adds.{Begins, Ends, Enters};

use crate::kinds::{Kind, NodeRef};
use std::alloc::Global;
use wesl_tree_names::Error;

/// The nodes of a kind that a walk has met so far: the outermost ones, or with `deep` also those inside them.
pub struct Collected<'a, T> {
    nodes: Vec<&'a T>,
    deep: bool,
    is_refused: bool,
}

impl<'a, T: Kind> Collected<'a, T> {
    /// None yet.
    pub fn new(alloc: Global, deep: bool) -> Collected<'a, T>
        ensures { Begins deep result }
    {
        Collected {
            nodes: Vec::new(alloc),
            deep,
            is_refused: false,
        }
    }

    /// Takes the node down where it is of the kind, and answers whether the walk goes on below it.
    pub(crate) fn enter(&mut self, node: NodeRef<'a>) -> bool
        ensures { Enters T.sought T.view self.old (node_tree node.entry) result self.new }
    {
        match T::pick(node) {
            Some(picked) => {
                self.is_refused |= self.nodes.push(picked).is_err();
                self.deep
            }
            None => true,
        }
    }

    /// The nodes, in document order. Refused where memory was wanting.
    pub fn end(self) -> Result<Vec<&'a T>, Error>
        ensures listed { IfOk result (λ nodes. Ends self.entry nodes) }
        ensures refused { IfErr result (λ e. e ≡ error.Memory) }
    {
        let Collected {
            nodes,
            deep: _,
            is_refused,
        } = self;
        if is_refused {
            return Err(Error::Memory);
        }
        Ok(nodes)
    }
}
