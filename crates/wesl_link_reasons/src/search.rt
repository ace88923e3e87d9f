//! The search by breadth: each node that was found is taken once, and each look-up is gone through once.
ghost use Rattle.std.specs.Prelude.{◌≡◌, ◌<◌, ◌^◌, [], length, true, Some, None, IfOk, IfSome, OnOk, Contains};
ghost use Rattle.wesl_link_symbols.specs.declared.ids.PathId.{PathId};
ghost use Rattle.wesl_tree_base.specs.declared.ids.NameId.{NameId};
ghost use Rattle.wesl_link_symbols.specs.declared.symbols.LookUp.{LookUp};
ghost use Rattle.wesl_link_reasons.specs.declared.node.Node.TheVariants.{Module};
ghost use Rattle.wesl_link_reasons.specs.Found.{IsFoundAt};
ghost use Rattle.wesl_link_reasons.specs.Searching.{AreDone, ComesFrom, Grows, HasFirsts, IsDoneAt, IsReady, IsSound, IsTaken, TakesAll, WentThrough};

use crate::findings::Findings;
use crate::map::Map;
use crate::node::Node;
use crate::trail::Trail;
use std::alloc::{AllocError, Global};
use wesl_link_symbols::ids::{NameId, PathId};
use wesl_link_symbols::symbols::{Answer, LookUp, Symbol};

/// What a search found, and the look-ups that it went through.
#[derive(Drop)]
pub struct Search {
    pub findings: Findings,
    pub trail: Trail,
}

impl Search {
    /// Goes through a look-up that was not gone through before: what it asks and finds there is noted, and where it hops on
    /// is handed back.
    fn pass(
        &mut self,
        map: &Map<'_>,
        look_up: LookUp<PathId, NameId>,
        asker: usize,
    ) -> Result<Option<LookUp<PathId, NameId>>, AllocError>
        requires ready { IsReady map.now }
        requires sound { IsSound map.now self.old.findings }
        requires way { ComesFrom map.now self.old asker look_up }
        requires through { WentThrough map.now self.old (Some look_up) }
        requires fresh { Contains self.old.trail look_up → ⊥ }
        ensures sound { OnOk result (IsSound map.now self.new.findings) }
        ensures grows { OnOk result (Grows self.old self.new) }
        ensures through { IfOk result (WentThrough map.now self.new) }
        ensures followed { OnOk result (Contains self.new.trail look_up) }
        ensures way { IfOk result (λ o. IfSome o (ComesFrom map.now self.new asker)) }
        ensures longer { IfOk result (λ o. IfSome o (λ _. length self.old.trail < length self.new.trail)) }
        ensures small { IfOk result (λ o. IfSome o (λ _. length self.new.trail < 2 ^ 63)) }
    {
        self.trail.put(look_up)?;
        self.findings.note(Node::Module(look_up.path), Some(asker))?;
        match map.answer(look_up) {
            Answer::Declared => {
                let symbol = Symbol {
                    path: look_up.path,
                    name: look_up.name,
                };
                self.findings.note(Node::Item(symbol), Some(asker))?;
                Ok(None)
            }
            Answer::Next(next) => Ok(Some(next)),
            _ => Ok(None),
        }
    }

    /// Goes through a look-up, unless it was gone through before, and says where it hops on.
    fn hop(
        &mut self,
        map: &Map<'_>,
        look_up: LookUp<PathId, NameId>,
        asker: usize,
    ) -> Result<Option<LookUp<PathId, NameId>>, AllocError>
        requires ready { IsReady map.now }
        requires sound { IsSound map.now self.old.findings }
        requires way { ComesFrom map.now self.old asker look_up }
        requires through { WentThrough map.now self.old (Some look_up) }
        ensures sound { OnOk result (IsSound map.now self.new.findings) }
        ensures grows { OnOk result (Grows self.old self.new) }
        ensures through { IfOk result (WentThrough map.now self.new) }
        ensures followed { OnOk result (Contains self.new.trail look_up) }
        ensures way { IfOk result (λ o. IfSome o (ComesFrom map.now self.new asker)) }
        ensures longer { IfOk result (λ o. IfSome o (λ _. length self.old.trail < length self.new.trail)) }
        ensures small { IfOk result (λ o. IfSome o (λ _. length self.new.trail < 2 ^ 63)) }
    {
        if self.trail.has(look_up) {
            return Ok(None);
        }
        self.pass(map, look_up, asker)
    }

    /// Follows a look-up of the node at a place, as far as none was followed before.
    fn follow(
        &mut self,
        map: &Map<'_>,
        start: LookUp<PathId, NameId>,
        asker: usize,
    ) -> Result<(), AllocError>
        requires ready { IsReady map.now }
        requires sound { IsSound map.now self.old.findings }
        requires way { ComesFrom map.now self.old asker start }
        requires through { WentThrough map.now self.old None }
        ensures sound { OnOk result (IsSound map.now self.new.findings) }
        ensures grows { OnOk result (Grows self.old self.new) }
        ensures through { OnOk result (WentThrough map.now self.new None) }
        ensures followed { OnOk result (Contains self.new.trail start) }
    {
        let mut current = start;
        'hops: loop {
            match self.hop(map, current, asker)? {
                Some(next) => current = next,
                None => return Ok(()),
            }
        }
    }

    /// Follows the look-ups of the node at a place.
    fn follow_all(
        &mut self,
        map: &Map<'_>,
        look_ups: &[LookUp<PathId, NameId>],
        asker: usize,
    ) -> Result<(), AllocError>
        requires ready { IsReady map.now }
        requires sound { IsSound map.now self.old.findings }
        requires ways { (l : LookUp PathId NameId) → Contains look_ups.now l → ComesFrom map.now self.old asker l }
        requires through { WentThrough map.now self.old None }
        ensures sound { OnOk result (IsSound map.now self.new.findings) }
        ensures grows { OnOk result (Grows self.old self.new) }
        ensures through { OnOk result (WentThrough map.now self.new None) }
        ensures followed { OnOk result ((l : LookUp PathId NameId) → Contains look_ups.now l → Contains self.new.trail l) }
    {
        for look_up in look_ups {
            self.follow(map, *look_up, asker)?;
        }
        Ok(())
    }

    /// Notes all that an eager link takes with the module at a path, which stands at that place.
    fn take_whole(&mut self, map: &Map<'_>, path: PathId, asker: usize) -> Result<(), AllocError>
        requires ready { IsReady map.now }
        requires sound { IsSound map.now self.old.findings }
        requires eager { map.now.is_eager ≡ true }
        requires here { IsFoundAt self.old.findings.nodes.items (Module path) asker }
        requires through { WentThrough map.now self.old None }
        ensures sound { OnOk result (IsSound map.now self.new.findings) }
        ensures grows { OnOk result (Grows self.old self.new) }
        ensures through { OnOk result (WentThrough map.now self.new None) }
        ensures taken { OnOk result (TakesAll map.now self.new.findings.nodes.items path) }
    {
        match map.table(path) {
            Some(table) => {
                self.findings.note_imports(table, asker)?;
                self.findings.note_declared(table, asker)?;
                Ok(())
            }
            None => Ok(()),
        }
    }

    /// Notes what an eager link takes with the node at a place.
    fn take_with(
        &mut self,
        map: &Map<'_>,
        node: Node<PathId, NameId>,
        place: usize,
    ) -> Result<(), AllocError>
        requires ready { IsReady map.now }
        requires sound { IsSound map.now self.old.findings }
        requires here { IsFoundAt self.old.findings.nodes.items node place }
        requires through { WentThrough map.now self.old None }
        ensures sound { OnOk result (IsSound map.now self.new.findings) }
        ensures grows { OnOk result (Grows self.old self.new) }
        ensures through { OnOk result (WentThrough map.now self.new None) }
        ensures taken { OnOk result (IsTaken map.now self.new.findings.nodes.items node) }
    {
        if !map.is_eager {
            return Ok(());
        }
        match node {
            Node::KeptName(_) => Ok(()),
            Node::Module(path) => {
                self.take_whole(map, path, place)?;
                Ok(())
            }
            Node::Item(_) => Ok(()),
        }
    }

    /// Takes the node at a place: all that it asks for is noted.
    fn take(&mut self, alloc: Global, map: &Map<'_>, place: usize) -> Result<(), AllocError>
        requires ready { IsReady map.now }
        requires sound { IsSound map.now self.old.findings }
        requires within { place < length self.old.findings.nodes.items }
        requires through { WentThrough map.now self.old None }
        ensures sound { OnOk result (IsSound map.now self.new.findings) }
        ensures grows { OnOk result (Grows self.old self.new) }
        ensures through { OnOk result (WentThrough map.now self.new None) }
        ensures done { OnOk result (IsDoneAt map.now self.new place) }
    {
        let node = self.findings.nodes[place].node;
        let look_ups = map.look_ups(alloc, node)?;
        self.follow_all(map, &look_ups, place)?;
        self.take_with(map, node, place)?;
        Ok(())
    }

    /// Takes nodes until each is taken.
    fn take_all(&mut self, alloc: Global, map: &Map<'_>) -> Result<(), AllocError>
        requires ready { IsReady map.now }
        requires sound { IsSound map.now self.old.findings }
        requires through { WentThrough map.now self.old None }
        ensures sound { OnOk result (IsSound map.now self.new.findings) }
        ensures grows { OnOk result (Grows self.old self.new) }
        ensures through { OnOk result (WentThrough map.now self.new None) }
        ensures done { OnOk result (AreDone map.now self.new (length self.new.findings.nodes.items)) }
    {
        let mut place = 0;
        'turns: while place < self.findings.nodes.len() {
            self.take(alloc, map, place)?;
            place += 1;
        }
        Ok(())
    }

    /// Notes what is there without being asked for, and then takes nodes until each is taken.
    pub fn run(&mut self, alloc: Global, map: &Map<'_>) -> Result<(), AllocError>
        requires ready { IsReady map.now }
        requires nodes { self.old.findings.nodes.items ≡ [] }
        requires places { self.old.findings.places.entries ≡ [] }
        requires trail { self.old.trail ≡ [] }
        ensures sound { OnOk result (IsSound map.now self.new.findings) }
        ensures firsts { OnOk result (HasFirsts map.now self.new.findings.nodes.items) }
        ensures through { OnOk result (WentThrough map.now self.new None) }
        ensures done { OnOk result (AreDone map.now self.new (length self.new.findings.nodes.items)) }
    {
        self.findings.note_kept(map.kept)?;
        self.findings.note(Node::Module(map.root), None)?;
        self.take_all(alloc, map)?;
        Ok(())
    }
}
