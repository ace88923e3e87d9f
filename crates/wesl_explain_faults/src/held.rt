//! What is held in a link that goes on behind its faults, and who asked for each first.
ghost use Rattle.std.specs.Prelude.{◌≡◌};
ghost use Rattle.wesl_link_flaws.specs.Searching.{IsReady};

use std::alloc::{AllocError, Global};
use std::collections::HashMap;
use wesl_cond_choices::place::Place;
use wesl_explain_ways::{Chain, Depths, whoever_asks};
use wesl_link_flaws::given::{Given, ask};
use wesl_link_flaws::told::End;
use wesl_link_reasons::found::Found;
use wesl_link_reasons::node::Node;
use wesl_link_symbols::ids::{NameId, PathId};
use wesl_link_symbols::keyed;
use wesl_link_symbols::symbols::{LookUp, Symbol};
use wesl_link_symbols::table::Table;

/// What is held, in the order in which it was found, and where each stands: of each who asked for it first.
#[derive(Drop)]
pub struct HeldNodes {
    pub nodes: Vec<Found>,
    places: HashMap<Node<PathId, NameId>, usize>,
    depths: Depths,
}

/// A search for what is held, and the look-ups that walks came to, each with the node for which the first did. Those of other
/// modules are one.
#[derive(Drop)]
struct Search {
    held: HeldNodes,
    passed: HashMap<LookUp<PathId, NameId>, usize>,
}

impl HeldNodes {
    /// Nothing. It takes no memory.
    fn new(alloc: Global) -> HeldNodes {
        HeldNodes {
            nodes: Vec::new(alloc),
            places: HashMap::new(alloc),
            depths: Depths::new(alloc),
        }
    }

    /// Where a node stands, if it is held.
    pub fn place_of(&self, node: Node<PathId, NameId>) -> Option<usize> {
        keyed::value_at(&self.places, node)
    }

    /// The chain from what is kept, or from the root's module, to the node at a place.
    pub fn chain(&self, alloc: Global, place: usize) -> Result<Chain, AllocError> {
        self.depths.chain(alloc, &self.nodes, place)
    }

    /// Adds a node that was asked for, unless it is there.
    fn note(&mut self, node: Node<PathId, NameId>, asker: Option<usize>) -> Result<(), AllocError> {
        if self.place_of(node).is_some() {
            return Ok(());
        }
        keyed::put(&mut self.places, node, self.nodes.len())?;
        self.nodes.push(Found { node, asker })?;
        Ok(())
    }

    /// Adds the names that are kept, and the root's module.
    fn note_first(&mut self, given: &Given<'_>) -> Result<(), AllocError> {
        self.note(Node::Module(given.root), None)?;
        for name in given.kept {
            self.note(Node::KeptName(*name), None)?;
        }
        Ok(())
    }

    /// Adds the modules that a module imports from.
    fn note_imports(&mut self, table: &Table, asker: usize) -> Result<(), AllocError> {
        for import in table.imports() {
            self.note(Node::Module(import.path), Some(asker))?;
        }
        Ok(())
    }

    /// Adds the symbol of a name, where there is a name.
    fn note_named(
        &mut self,
        path: PathId,
        name: Option<NameId>,
        asker: usize,
    ) -> Result<(), AllocError> {
        match name {
            Some(name) => self.note(Node::Item(Symbol { path, name }), Some(asker)),
            None => Ok(()),
        }
    }

    /// Adds the symbols that a module declares.
    fn note_declared(&mut self, table: &Table, asker: usize) -> Result<(), AllocError> {
        for declaration in table.declarations() {
            self.note_named(table.path(), declaration.name(), asker)?;
        }
        Ok(())
    }

    /// Adds the symbol that a look-up ends with, where it leads to one.
    fn note_end(&mut self, end: End<PathId, NameId>, asker: usize) -> Result<(), AllocError> {
        match end {
            End::Found(symbol) => self.note(Node::Item(symbol), Some(asker)),
            End::Flawed(_, _) => Ok(()),
        }
    }
}

impl Search {
    /// Follows a look-up of the node at a place to its end, or to one that a walk came to before: adds the modules on the way,
    /// and the symbol.
    fn follow(
        &mut self,
        given: &Given<'_>,
        place: usize,
        start: LookUp<PathId, NameId>,
    ) -> Result<(), AllocError>
        requires ready { IsReady given.now }
    {
        let mut current = start;
        for _hop in 0..usize::MAX {
            let asked = whoever_asks(current);
            if keyed::value_at(&self.passed, asked).is_some() {
                return Ok(());
            }
            keyed::put(&mut self.passed, asked, place)?;
            self.held.note(Node::Module(current.path), Some(place))?;
            match given.hop(current) {
                Ok(next) => current = next,
                Err(end) => return self.held.note_end(end, place),
            }
        }
        Ok(())
    }

    /// Follows the references of a declaration.
    fn follow_references(
        &mut self,
        given: &Given<'_>,
        place: usize,
        table: &Table,
        index: usize,
    ) -> Result<(), AllocError>
        requires ready { IsReady given.now }
    {
        let Some(declaration) = table.declarations().get(index) else {
            return Ok(());
        };
        for reference in declaration.references() {
            self.follow(given, place, ask(table, reference))?;
        }
        Ok(())
    }

    /// Follows what the declarations of a name ask for in a module, or where there is none its const_asserts.
    fn follow_named(
        &mut self,
        given: &Given<'_>,
        place: usize,
        table: &Table,
        name: Option<NameId>,
    ) -> Result<(), AllocError>
        requires ready { IsReady given.now }
    {
        let mut at = table.latest_of(name);
        'declarations: while let Some(index) = at {
            self.follow_references(given, place, table, index)?;
            at = table.earlier_of(index, name);
        }
        Ok(())
    }

    /// Follows what the declarations of a name ask for in the module at a path, or where there is none its const_asserts.
    fn take_named(
        &mut self,
        given: &Given<'_>,
        place: usize,
        path: PathId,
        name: Option<NameId>,
    ) -> Result<(), AllocError>
        requires ready { IsReady given.now }
    {
        match given.table(path) {
            Some(table) => self.follow_named(given, place, table, name),
            None => Ok(()),
        }
    }

    /// Takes what an eager link takes with the module at a path.
    fn take_whole(
        &mut self,
        given: &Given<'_>,
        place: usize,
        path: PathId,
    ) -> Result<(), AllocError>
        requires ready { IsReady given.now }
    {
        match given.table(path) {
            Some(table) if given.is_eager => {
                self.held.note_imports(table, place)?;
                self.held.note_declared(table, place)
            }
            _ => Ok(()),
        }
    }

    /// Takes a module that is held.
    fn take_module(
        &mut self,
        given: &Given<'_>,
        place: usize,
        path: PathId,
    ) -> Result<(), AllocError>
        requires ready { IsReady given.now }
    {
        self.take_named(given, place, path, None)?;
        self.take_whole(given, place, path)
    }

    /// Takes the node at a place.
    fn take(
        &mut self,
        given: &Given<'_>,
        place: usize,
        node: Node<PathId, NameId>,
    ) -> Result<(), AllocError>
        requires ready { IsReady given.now }
    {
        match node {
            Node::KeptName(name) => self.follow(
                given,
                place,
                LookUp {
                    asker: None,
                    path: given.root,
                    name,
                    from: Place::Always,
                },
            ),
            Node::Module(path) => self.take_module(given, place, path),
            Node::Item(symbol) => { self.take_named(given, place, symbol.path, Some(symbol.name)) }
        }
    }

    /// Takes each node that is found until all are taken.
    fn take_all(&mut self, given: &Given<'_>) -> Result<(), AllocError>
        requires ready { IsReady given.now }
    {
        for place in 0..usize::MAX {
            let Some(found) = self.held.nodes.get(place) else {
                return Ok(());
            };
            let node = found.node;
            self.take(given, place, node)?;
        }
        Ok(())
    }
}

/// What is held in a world of modules, each with who asked for it first.
pub fn held_nodes(alloc: Global, given: &Given<'_>) -> Result<HeldNodes, AllocError>
    requires ready { IsReady given.now }
{
    let mut search = Search {
        held: HeldNodes::new(alloc),
        passed: HashMap::new(alloc),
    };
    search.held.note_first(given)?;
    search.take_all(given)?;
    let Search { held, passed: _ } = search;
    let HeldNodes {
        nodes,
        places,
        depths: _,
    } = held;
    let depths = Depths::of(alloc, &nodes)?;
    Ok(HeldNodes {
        nodes,
        places,
        depths,
    })
}
