//! What a search found, each node once, in the order in which it was found.
ghost use Rattle.std.specs.Prelude.{◌≡◌, [], Some, None, IfSome, IfNone, OnOk, Contains};
ghost use Rattle.wesl_link_symbols.specs.declared.ids.PathId.{PathId};
ghost use Rattle.wesl_tree_base.specs.declared.ids.NameId.{NameId};
ghost use Rattle.wesl_link_reasons.specs.Found.{AddsFound, AreIndexed, IsDeclared, IsFound, IsFoundAt, IsImported, IsKeptIn, IsNamed};

use crate::found::Found;
use crate::node::Node;
use std::alloc::{AllocError, Global};
use std::collections::HashMap;
use wesl_link_symbols::ids::{NameId, PathId};
use wesl_link_symbols::keyed;
use wesl_link_symbols::symbols::Symbol;
use wesl_link_symbols::table::Table;

/// The nodes that a search found, and where each of them stands.
#[derive(Drop)]
pub struct Findings {
    pub nodes: Vec<Found>,
    pub places: HashMap<Node<PathId, NameId>, usize>,
}

impl Findings {
    /// No nodes. They take no memory.
    pub fn new(alloc: Global) -> Findings
        ensures nodes { result.nodes.items ≡ [] }
        ensures places { result.places.entries ≡ [] }
    {
        Findings {
            nodes: Vec::new(alloc),
            places: HashMap::new(alloc),
        }
    }

    /// Where a node stands, if it was found.
    pub fn place_of(&self, node: Node<PathId, NameId>) -> Option<usize>
        requires { AreIndexed self.now.nodes.items self.now.places.entries }
        ensures found { IfSome result (λ k. IsFoundAt self.now.nodes.items node k) }
        ensures none { IfNone result (IsFound self.now.nodes.items node → ⊥) }
    {
        keyed::value_at(&self.places, node)
    }

    /// Adds a node that was not found before.
    fn add(&mut self, node: Node<PathId, NameId>, asker: Option<usize>) -> Result<(), AllocError>
        requires indexed { AreIndexed self.old.nodes.items self.old.places.entries }
        requires fresh { IsFound self.old.nodes.items node → ⊥ }
        ensures indexed { OnOk result (AreIndexed self.new.nodes.items self.new.places.entries) }
        ensures adds { OnOk result (AddsFound self.old.nodes.items self.new.nodes.items asker (λ x. x ≡ node)) }
    {
        keyed::put(&mut self.places, node, self.nodes.len())?;
        self.nodes.push(Found { node, asker })?;
        Ok(())
    }

    /// Adds a node that was asked for, unless it was found before.
    pub fn note(
        &mut self,
        node: Node<PathId, NameId>,
        asker: Option<usize>,
    ) -> Result<(), AllocError>
        requires indexed { AreIndexed self.old.nodes.items self.old.places.entries }
        ensures indexed { OnOk result (AreIndexed self.new.nodes.items self.new.places.entries) }
        ensures adds { OnOk result (AddsFound self.old.nodes.items self.new.nodes.items asker (λ x. x ≡ node)) }
    {
        match self.place_of(node) {
            Some(_) => Ok(()),
            None => self.add(node, asker),
        }
    }

    /// Adds the names that are kept.
    pub fn note_kept(&mut self, kept: &[NameId]) -> Result<(), AllocError>
        requires indexed { AreIndexed self.old.nodes.items self.old.places.entries }
        ensures indexed { OnOk result (AreIndexed self.new.nodes.items self.new.places.entries) }
        ensures adds { OnOk result (AddsFound self.old.nodes.items self.new.nodes.items None (IsKeptIn kept.now)) }
    {
        for name in kept {
            self.note(Node::KeptName(*name), None)?;
        }
        Ok(())
    }

    /// Adds the modules that a module imports from.
    pub fn note_imports(&mut self, table: &Table, asker: usize) -> Result<(), AllocError>
        requires indexed { AreIndexed self.old.nodes.items self.old.places.entries }
        ensures indexed { OnOk result (AreIndexed self.new.nodes.items self.new.places.entries) }
        ensures adds { OnOk result (AddsFound self.old.nodes.items self.new.nodes.items (Some asker) (IsImported table.now.imports)) }
    {
        for import in table.imports() {
            self.note(Node::Module(import.path), Some(asker))?;
        }
        Ok(())
    }

    /// Adds the symbol of a declaration of that name in the module at a path, where there is a name.
    fn note_named(
        &mut self,
        path: PathId,
        name: Option<NameId>,
        asker: usize,
    ) -> Result<(), AllocError>
        requires indexed { AreIndexed self.old.nodes.items self.old.places.entries }
        ensures indexed { OnOk result (AreIndexed self.new.nodes.items self.new.places.entries) }
        ensures adds { OnOk result (AddsFound self.old.nodes.items self.new.nodes.items (Some asker) (IsNamed path name)) }
    {
        match name {
            Some(name) => {
                self.note(Node::Item(Symbol { path, name }), Some(asker))?;
                Ok(())
            }
            None => Ok(()),
        }
    }

    /// Adds the symbols that a module declares.
    pub fn note_declared(&mut self, table: &Table, asker: usize) -> Result<(), AllocError>
        requires indexed { AreIndexed self.old.nodes.items self.old.places.entries }
        ensures indexed { OnOk result (AreIndexed self.new.nodes.items self.new.places.entries) }
        ensures adds { OnOk result (AddsFound self.old.nodes.items self.new.nodes.items (Some asker) (IsDeclared table.now.path table.now.declarations)) }
    {
        for declaration in table.declarations() {
            self.note_named(table.path(), declaration.name(), asker)?;
        }
        Ok(())
    }
}
