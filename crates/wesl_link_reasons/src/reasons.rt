//! Reasons: for each node that is held in a link a chain to it.
ghost use Rattle.std.specs.Prelude.{◌≡◌, ◌<◌, [], length, reverse, slice_get, Some, IfOk, IfSome, IfNone, OnOk};
ghost use Rattle.wesl_link_symbols.specs.declared.ids.PathId.{PathId};
ghost use Rattle.wesl_tree_base.specs.declared.ids.NameId.{NameId};
ghost use Rattle.wesl_link_reasons.specs.declared.found.Found.{Found};
ghost use Rattle.wesl_link_reasons.specs.declared.node.Node.TheVariants.{Item, Module};
ghost use Rattle.wesl_link_reasons.specs.Reasons.{IsUnbroken, task_from};
ghost use Rattle.wesl_link_reach.specs.Faults.{AreDistinct};
ghost use Rattle.wesl_link_reasons.specs.Found.{AreOrdered, AreReasons, Denies, Explains, IsFoundAt, LeadsBack, StandOnce};

use crate::findings::Findings;
use crate::found::Found;
use crate::map::{Map, place_all};
use crate::node::Node;
use crate::search::Search;
use crate::trail::Trail;
use std::alloc::{AllocError, Global};
use std::collections::HashMap;
use std::marker::Model;
use wesl_link_symbols::ids::{NameId, PathId};
use wesl_link_symbols::symbols::Symbol;
use wesl_link_symbols::table::Table;

/// For each symbol and module that is held in a link who asked for it first.
pub struct Reasons {
    findings: Findings,
}

// By hand, so that it is proved once: a derived one is proved in each crate that lets go of a value.
impl Drop for Reasons {
    fn drop(self) {
        let Reasons { findings: _ } = self;
    }
}

impl Model for Reasons {
    ghost use Rattle.std.specs.Prelude.{List};
    ghost use Rattle.wesl_link_reasons.specs.declared.found.Found.{Found};
    ghost use Rattle.wesl_link_reasons.specs.Found.{AreOrdered, AreSorted};

    ghost Value = { List Found };

    ghost view = { λ r. r.findings.nodes.items };

    ghost invariant = { λ r. AreSorted r.findings.nodes.items r.findings.places.entries };
}

/// Adds the node at a place, who asked for it, who asked for that one, and so on.
fn add_askers(
    nodes: &[Found],
    place: usize,
    chain: &mut Vec<Node<PathId, NameId>>,
) -> Result<(), AllocError>
    requires ordered { AreOrdered nodes.now }
    requires once { StandOnce nodes.now }
    requires within { place < length nodes.now }
    requires empty { chain.old.items ≡ [] }
    ensures told { OnOk result (LeadsBack nodes.now place chain.new.items) }
    ensures once { OnOk result (AreDistinct (reverse chain.new.items)) }
{
    let mut at = place;
    chain.push(nodes[place].node)?;
    'askers: while let Some(asker) = nodes[at].asker {
        chain.push(nodes[asker].node)?;
        at = asker;
    }
    Ok(())
}

/// The chain to the node at a place.
fn chain_to(
    alloc: Global,
    nodes: &[Found],
    place: usize,
) -> Result<Vec<Node<PathId, NameId>>, AllocError>
    requires ordered { AreOrdered nodes.now }
    requires once { StandOnce nodes.now }
    requires within { place < length nodes.now }
    ensures told { IfOk result (λ v. (f : Found) → slice_get nodes.now place ≡ Some f → Explains nodes.now f.node v.items) }
    ensures once { IfOk result (λ v. AreDistinct v.items) }
{
    let mut chain = Vec::new(alloc);
    add_askers(nodes, place, &mut chain)?;
    chain.reverse();
    Ok(chain)
}

impl Reasons {
    /// Each node that is held, once, behind the one that asked for it first.
    pub fn nodes(&self) -> &[Found]
        ensures { result.now ≡ self.now }
    {
        &self.findings.nodes
    }

    /// Where a node stands among these, if it is held.
    pub fn place_of(&self, node: Node<PathId, NameId>) -> Option<usize>
        ensures found { IfSome result (IsFoundAt self.now node) }
        ensures none { IfNone result (Denies self.now node) }
    {
        self.findings.place_of(node)
    }

    /// Why a node is held in the link: nodes from a kept name or the root's module to it, each next one asked for by the one
    /// before, and none there twice (WESL, "Imports"). None where the node is not held. Refused for want of memory alone.
    pub fn of_node(
        &self,
        alloc: Global,
        node: Node<PathId, NameId>,
    ) -> Result<Option<Vec<Node<PathId, NameId>>>, AllocError>
        ensures told { IfOk result (λ o. IfSome o (λ v. Explains self.now node v.items)) }
        ensures once { IfOk result (λ o. IfSome o (λ v. AreDistinct v.items)) }
        ensures none { IfOk result (λ o. IfNone o (Denies self.now node)) }
    {
        match self.findings.place_of(node) {
            Some(place) => Ok(Some(chain_to(alloc, &self.findings.nodes, place)?)),
            None => Ok(None),
        }
    }

    /// Why a symbol is held in the link: the same of it. None where it is not reached. Refused for want of memory alone.
    pub fn of_symbol(
        &self,
        alloc: Global,
        symbol: Symbol<PathId, NameId>,
    ) -> Result<Option<Vec<Node<PathId, NameId>>>, AllocError>
        ensures told { IfOk result (λ o. IfSome o (λ v. Explains self.now (Item symbol) v.items)) }
        ensures once { IfOk result (λ o. IfSome o (λ v. AreDistinct v.items)) }
        ensures none { IfOk result (λ o. IfNone o (Denies self.now (Item symbol))) }
    {
        self.of_node(alloc, Node::Item(symbol))
    }

    /// Why the module at a path is loaded: the same of it. None where it is not entered. Refused for want of memory alone.
    pub fn of_module(
        &self,
        alloc: Global,
        path: PathId,
    ) -> Result<Option<Vec<Node<PathId, NameId>>>, AllocError>
        ensures told { IfOk result (λ o. IfSome o (λ v. Explains self.now (Module path) v.items)) }
        ensures once { IfOk result (λ o. IfSome o (λ v. AreDistinct v.items)) }
        ensures none { IfOk result (λ o. IfNone o (Denies self.now (Module path))) }
    {
        self.of_node(alloc, Node::Module(path))
    }
}

/// Why each symbol and each module is held in a link of these modules that succeeded.
///
/// `root` is where the root stands, `kept` are the names of it that are kept, and `is_eager` says whether all that is
/// declared is held. Each module, symbol and look-up is gone through once. Refused for want of memory alone.
pub fn reasons_of<'a>(
    alloc: Global,
    tables: &'a [Table],
    root: PathId,
    kept: &'a [NameId],
    is_eager: bool,
) -> Result<Reasons, AllocError>
    requires { IsUnbroken tables.now (task_from root kept.now is_eager) }
    ensures { IfOk result (AreReasons tables.now (task_from root kept.now is_eager)) }
{
    let mut map = Map {
        tables,
        places: HashMap::new(alloc),
        root,
        kept,
        is_eager,
    };
    place_all(&mut map.places, tables)?;
    let mut search = Search {
        findings: Findings::new(alloc),
        trail: Trail::new(alloc),
    };
    search.run(alloc, &map)?;
    let Search { findings, trail: _ } = search;
    Ok(Reasons { findings })
}
