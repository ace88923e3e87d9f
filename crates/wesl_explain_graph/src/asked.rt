//! What is asked for in a link: each look-up of what is held, and what it leads to.

use crate::nodes::{Arrow, Arrows};
use std::alloc::{AllocError, Global};
use std::collections::HashMap;
use wesl_cond_choices::place::Place;
use wesl_explain_text::loaded_in;
use wesl_explain_world::{Explanation, NameId, Node, PathId, Symbol, whoever_asks};
use wesl_link_flaws::given::ask;
use wesl_link_symbols::keyed;
use wesl_link_symbols::symbols::{Answer, LookUp};
use wesl_link_symbols::table::{Declaration, Table};

/// What is asked for: the look-ups of modules in the order in which they came, wherever in their modules they ask from, and which
/// node holds which.
#[derive(Drop)]
pub struct Asked {
    pub look_ups: Vec<LookUp<PathId, NameId>>,
    pub held: Vec<Arrow>,
}

/// Look-ups in the order in which they came, each once.
#[derive(Drop)]
struct LookUps {
    list: Vec<LookUp<PathId, NameId>>,
    held: HashMap<LookUp<PathId, NameId>, bool>,
}

/// The modules of a link, and what was followed in it.
#[derive(Drop)]
struct Walks<'t> {
    told: &'t Explanation,
    /// where the table of each path stands
    places: HashMap<PathId, usize>,
    /// what a look-up of a module leads to that was followed, whoever asks
    ends: HashMap<LookUp<PathId, NameId>, Option<Symbol<PathId, NameId>>>,
    look_ups: LookUps,
    held: Arrows,
}

/// The symbol tables of the modules that were loaded.
fn tables_of(told: &Explanation) -> &[Table] {
    match &told.linked {
        Some(linked) => linked.tables(),
        None => &told.tables,
    }
}

/// The root's path.
fn root_of(told: &Explanation) -> Option<PathId> {
    match &told.until {
        Some(until) => Some(until.root),
        None => told.modules.first().copied(),
    }
}

/// What holds the declarations of a name, or without a name the const_asserts of a module.
pub fn node_of(path: PathId, name: Option<NameId>) -> Node<PathId, NameId> {
    match name {
        Some(name) => Node::Item(Symbol { path, name }),
        None => Node::Module(path),
    }
}

/// Whether a declaration is held: that of a name where its symbol is reached, and each const_assert.
fn holds(told: &Explanation, path: PathId, name: Option<NameId>) -> bool {
    let Some(name) = name else {
        return true;
    };
    match (&told.linked, &told.until) {
        (Some(linked), _) => linked.holds(path, name),
        (None, Some(until)) => until.held.place_of(node_of(path, Some(name))).is_some(),
        (None, None) => false,
    }
}

/// The same look-up wherever in its module it asks from.
fn from_anywhere(look_up: LookUp<PathId, NameId>) -> LookUp<PathId, NameId> {
    LookUp {
        asker: look_up.asker,
        path: look_up.path,
        name: look_up.name,
        from: Place::Always,
    }
}

impl LookUps {
    /// All of them.
    fn into_list(self) -> Vec<LookUp<PathId, NameId>> {
        let LookUps { list, held: _ } = self;
        list
    }

    /// Adds a look-up, unless it is there. Says whether it was not.
    fn put(&mut self, look_up: LookUp<PathId, NameId>) -> Result<bool, AllocError> {
        if keyed::value_at(&self.held, look_up).is_some() {
            return Ok(false);
        }
        keyed::put(&mut self.held, look_up, true)?;
        self.list.push(look_up)?;
        Ok(true)
    }
}

impl Walks<'_> {
    /// The table of the module at a path.
    fn table(&self, path: PathId) -> Option<&Table> {
        match keyed::value_at(&self.places, path) {
            Some(place) => tables_of(self.told).get(place),
            None => None,
        }
    }

    /// What the module answers that is asked.
    fn answer(&self, look_up: LookUp<PathId, NameId>) -> Answer<PathId, NameId> {
        match self.table(look_up.path) {
            Some(table) => table.answer(look_up),
            None => Answer::Missing,
        }
    }

    /// Goes from a look-up to what it leads to, until it comes to one that was followed, or asks the same a second time. What is
    /// followed is added to the trail.
    fn walk(
        &mut self,
        alloc: Global,
        start: LookUp<PathId, NameId>,
        trail: &mut Vec<LookUp<PathId, NameId>>,
    ) -> Result<Option<Symbol<PathId, NameId>>, AllocError> {
        let mut questions = HashMap::new(alloc);
        let mut current = start;
        for _ in 0..usize::MAX {
            self.look_ups.put(from_anywhere(current))?;
            if let Some(end) = keyed::value_at(&self.ends, whoever_asks(current)) {
                return Ok(end);
            }
            let question = Symbol {
                path: current.path,
                name: current.name,
            };
            if keyed::value_at(&questions, question).is_some() {
                return Ok(None);
            }
            keyed::put(&mut questions, question, true)?;
            trail.push(current)?;
            match self.answer(current) {
                Answer::Next(next) => current = next,
                Answer::Declared => return Ok(Some(question)),
                _ => return Ok(None),
            }
        }
        Ok(None)
    }

    /// What a look-up leads to.
    fn follow(
        &mut self,
        alloc: Global,
        start: LookUp<PathId, NameId>,
    ) -> Result<Option<Symbol<PathId, NameId>>, AllocError> {
        let mut trail = Vec::new(alloc);
        let end = self.walk(alloc, start, &mut trail)?;
        for look_up in &trail {
            if look_up.asker.is_some() {
                keyed::put(&mut self.ends, whoever_asks(*look_up), end)?;
            }
        }
        Ok(end)
    }

    /// Follows what a node asks for.
    fn take(
        &mut self,
        alloc: Global,
        from: Node<PathId, NameId>,
        start: LookUp<PathId, NameId>,
    ) -> Result<(), AllocError> {
        match self.follow(alloc, start)? {
            Some(symbol) => self.held.put(Arrow {
                from,
                to: Node::Item(symbol),
            }),
            None => Ok(()),
        }
    }

    /// Follows what a declaration of a module asks for.
    fn take_declaration(
        &mut self,
        alloc: Global,
        table: &Table,
        declaration: &Declaration,
    ) -> Result<(), AllocError> {
        let from = node_of(table.path(), declaration.name());
        for reference in declaration.references() {
            self.take(alloc, from, ask(table, reference))?;
        }
        Ok(())
    }

    /// Follows what the held declarations of a module ask for.
    fn take_module(
        &mut self,
        alloc: Global,
        told: &Explanation,
        table: &Table,
    ) -> Result<(), AllocError> {
        for declaration in table.declarations() {
            if holds(told, table.path(), declaration.name()) {
                self.take_declaration(alloc, table, declaration)?;
            }
        }
        Ok(())
    }

    /// Adds what the imports of a module ask for, each by itself, as an eager link does.
    fn take_imports(&mut self, table: &Table) -> Result<(), AllocError> {
        for import in table.imports() {
            self.look_ups.put(LookUp {
                asker: Some(table.path()),
                path: import.path,
                name: import.item,
                from: Place::Always,
            })?;
        }
        Ok(())
    }

    /// Follows the names that are kept, each once.
    fn take_kept(&mut self, alloc: Global, told: &Explanation) -> Result<(), AllocError> {
        let Some(path) = root_of(told) else {
            return Ok(());
        };
        for name in &told.kept {
            let start = LookUp {
                asker: None,
                path,
                name: *name,
                from: Place::Always,
            };
            if self.look_ups.put(start)? {
                self.take(alloc, Node::KeptName(*name), start)?;
            }
        }
        Ok(())
    }

    /// Follows what the modules ask for, one after the other.
    fn take_all(&mut self, alloc: Global, told: &Explanation) -> Result<(), AllocError> {
        for path in loaded_in(told) {
            let place = keyed::value_at(&self.places, *path);
            if let Some(table) = table_at(told, place) {
                self.take_module(alloc, told, table)?;
                if told.is_eager {
                    self.take_imports(table)?;
                }
            }
        }
        Ok(())
    }
}

/// The table at a place.
fn table_at(told: &Explanation, place: Option<usize>) -> Option<&Table> {
    tables_of(told).get(place?)
}

/// The declarations of the module at a path that are held, each by its name.
pub fn held_in(
    alloc: Global,
    told: &Explanation,
    places: &HashMap<PathId, usize>,
    path: PathId,
) -> Result<Vec<Option<NameId>>, AllocError> {
    let mut names = Vec::new(alloc);
    let Some(table) = table_at(told, keyed::value_at(places, path)) else {
        return Ok(names);
    };
    for declaration in table.declarations() {
        if holds(told, path, declaration.name()) {
            names.push(declaration.name())?;
        }
    }
    Ok(names)
}

/// Where the table of each path stands.
pub fn places_of(alloc: Global, told: &Explanation) -> Result<HashMap<PathId, usize>, AllocError> {
    let mut places = HashMap::new(alloc);
    for (place, table) in tables_of(told).iter().enumerate() {
        keyed::put(&mut places, table.path(), place)?;
    }
    Ok(places)
}

/// What is asked for in a link.
pub fn asked_in(alloc: Global, told: &Explanation) -> Result<Asked, AllocError> {
    let mut walks = Walks {
        told,
        places: places_of(alloc, told)?,
        ends: HashMap::new(alloc),
        look_ups: LookUps {
            list: Vec::new(alloc),
            held: HashMap::new(alloc),
        },
        held: Arrows::new(alloc),
    };
    walks.take_kept(alloc, told)?;
    walks.take_all(alloc, told)?;
    let Walks {
        told: _,
        places: _,
        ends: _,
        look_ups,
        held,
    } = walks;
    Ok(Asked {
        look_ups: look_ups.into_list(),
        held: held.into_list(),
    })
}

/// By what name each import binds what it aims at: of those with the same target the first.
pub fn imports_in(
    alloc: Global,
    told: &Explanation,
) -> Result<HashMap<LookUp<PathId, NameId>, NameId>, AllocError> {
    let mut bound = HashMap::new(alloc);
    for table in tables_of(told) {
        add_imports(&mut bound, table)?;
    }
    Ok(bound)
}

/// Adds by what names the imports of a module bind what they aim at.
fn add_imports(
    bound: &mut HashMap<LookUp<PathId, NameId>, NameId>,
    table: &Table,
) -> Result<(), AllocError> {
    for import in table.imports() {
        let aimed = LookUp {
            asker: Some(table.path()),
            path: import.path,
            name: import.item,
            from: Place::Always,
        };
        if keyed::value_at(bound, aimed).is_none() {
            keyed::put(bound, aimed, import.bound)?;
        }
    }
    Ok(())
}
