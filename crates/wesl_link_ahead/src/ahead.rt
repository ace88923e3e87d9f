//! The search: each module and each symbol that is found is taken once, and each question is asked once.
ghost use Rattle.std.specs.Prelude.{◌≡◌, [], true, Some, IfOk, IfSome, OnOk, Contains};
ghost use Rattle.wesl_link_symbols.specs.declared.ids.PathId.{PathId};
ghost use Rattle.wesl_tree_base.specs.declared.ids.NameId.{NameId};
ghost use Rattle.wesl_link_symbols.specs.declared.symbols.LookUp.{LookUp};
ghost use Rattle.wesl_link_symbols.specs.Names.{Answers, AsksFrom, Declares};
ghost use Rattle.wesl_link_symbols.specs.Tables as tables;
ghost use Rattle.wesl_link_reach.specs.World.{IsAt, Entered, Followed};
ghost use Rattle.wesl_link_reach.specs.Trodden.{symbol_of};
ghost use Rattle.wesl_link_ahead.specs.Ahead.{AreEntered, ComesTo, IsAheadIn, IsAskedIn, KeepsAsked, task_in, world_in};

use crate::keys::Keys;
use std::alloc::{AllocError, Global};
use std::collections::HashMap;
use std::mem::replace;
use wesl_cond_choices::place::Place;
use wesl_link_reach::asked_from;
use wesl_link_symbols::ids::{NameId, PathId};
use wesl_link_symbols::keyed;
use wesl_link_symbols::symbols::{Answer, LookUp, Symbol};
use wesl_link_symbols::table::Table;

/// The modules of a link so far, and what it is asked for.
#[derive(Clone, Copy)]
pub struct Linking<'a> {
    pub tables: &'a [Table],
    pub root: PathId,
    pub kept: &'a [NameId],
    pub is_eager: bool,
}

/// What was found of a link so far.
#[derive(Drop)]
pub struct Ahead {
    /// where the module of each path stands
    places: HashMap<PathId, usize>,
    entered: Keys<PathId>,
    symbols: Keys<Symbol<PathId, NameId>>,
    asked: Keys<Symbol<PathId, NameId>>,
    /// the look-ups that ask modules which are not there
    waiting: Vec<LookUp<PathId, NameId>>,
    /// how many modules and symbols were taken, and how many paths were told
    modules: usize,
    turns: usize,
    told: usize,
}

/// What a look-up asks for.
fn question(look_up: LookUp<PathId, NameId>) -> Symbol<PathId, NameId>
    ensures { result ≡ symbol_of look_up }
{
    Symbol {
        path: look_up.path,
        name: look_up.name,
    }
}

impl Ahead {
    /// Nothing was found.
    pub fn new(alloc: Global) -> Ahead
        ensures places { result.places.entries ≡ [] }
        ensures entered { result.entered ≡ [] }
        ensures symbols { result.symbols ≡ [] }
        ensures waiting { result.waiting.items ≡ [] }
    {
        Ahead {
            places: HashMap::new(alloc),
            entered: Keys::new(alloc),
            symbols: Keys::new(alloc),
            asked: Keys::new(alloc),
            waiting: Vec::new(alloc),
            modules: 0,
            turns: 0,
            told: 0,
        }
    }

    /// The module at a path, if it was placed.
    fn table<'t>(&self, linking: &'t Linking<'_>, path: PathId) -> Option<&'t Table>
        requires ahead { IsAheadIn linking.now self.now }
        ensures { IfSome result (λ t. IsAt (world_in linking.now) path t.now) }
    {
        match keyed::value_at(&self.places, path) {
            Some(place) => Some(&linking.tables[place]),
            None => None,
        }
    }

    /// What the module that is asked answers: nothing where it is not there.
    fn answer(
        &self,
        linking: &Linking<'_>,
        look_up: LookUp<PathId, NameId>,
    ) -> Option<Answer<PathId, NameId>>
        requires ahead { IsAheadIn linking.now self.now }
        ensures { IfSome result (λ a. (t : tables.Table PathId NameId) × IsAt (world_in linking.now) look_up.path t × Answers t look_up a) }
    {
        match self.table(linking, look_up.path) {
            Some(table) => Some(table.answer(look_up)),
            None => None,
        }
    }

    /// Finds an entered path.
    fn enter(&mut self, linking: &Linking<'_>, path: PathId) -> Result<(), AllocError>
        requires ahead { IsAheadIn linking.now self.old }
        requires entered { Entered (world_in linking.now) (task_in linking.now) path }
        ensures ahead { OnOk result (IsAheadIn linking.now self.new) }
        ensures asked { self.new.asked ≡ self.old.asked }
    {
        self.entered.put(path)
    }

    /// Goes on from a question that is asked for the first time: to the symbol, to where the module asks further, or to wait.
    fn pass(
        &mut self,
        linking: &Linking<'_>,
        look_up: LookUp<PathId, NameId>,
    ) -> Result<Option<LookUp<PathId, NameId>>, AllocError>
        requires ahead { IsAheadIn linking.now self.old }
        requires asked { IsAskedIn linking.now self.old look_up }
        ensures ahead { OnOk result (IsAheadIn linking.now self.new) }
        ensures keeps { OnOk result (KeepsAsked self.old self.new) }
        ensures way { IfOk result (λ o. IfSome o (ComesTo linking.now self.new)) }
    {
        match self.answer(linking, look_up) {
            Some(Answer::Next(next)) => Ok(Some(next)),
            Some(Answer::Declared) => {
                self.symbols.put(question(look_up))?;
                Ok(None)
            }
            Some(_) => Ok(None),
            None => {
                self.waiting.push(look_up)?;
                Ok(None)
            }
        }
    }

    /// Comes to a question: its path is entered. Where it was asked before, no more is found there.
    fn come(
        &mut self,
        linking: &Linking<'_>,
        look_up: LookUp<PathId, NameId>,
    ) -> Result<Option<LookUp<PathId, NameId>>, AllocError>
        requires ahead { IsAheadIn linking.now self.old }
        requires way { ComesTo linking.now self.old look_up }
        ensures ahead { OnOk result (IsAheadIn linking.now self.new) }
        ensures keeps { OnOk result (KeepsAsked self.old self.new) }
        ensures way { IfOk result (λ o. IfSome o (ComesTo linking.now self.new)) }
    {
        self.enter(linking, look_up.path)?;
        if self.asked.has(question(look_up)) {
            return Ok(None);
        }
        self.asked.put(question(look_up))?;
        let next = self.pass(linking, look_up)?;
        Ok(next)
    }

    /// Walks on from a question.
    fn walk(
        &mut self,
        linking: &Linking<'_>,
        start: LookUp<PathId, NameId>,
    ) -> Result<(), AllocError>
        requires ahead { IsAheadIn linking.now self.old }
        requires way { ComesTo linking.now self.old start }
        ensures ahead { OnOk result (IsAheadIn linking.now self.new) }
        ensures keeps { OnOk result (KeepsAsked self.old self.new) }
    {
        let mut current = start;
        for _hop in 0..usize::MAX {
            match self.come(linking, current)? {
                Some(next) => current = next,
                None => return Ok(()),
            }
        }
        Ok(())
    }

    /// Follows look-ups.
    fn follow_all(
        &mut self,
        linking: &Linking<'_>,
        look_ups: &[LookUp<PathId, NameId>],
    ) -> Result<(), AllocError>
        requires ahead { IsAheadIn linking.now self.old }
        requires followed { (l : LookUp PathId NameId) → Contains look_ups.now l → Followed (world_in linking.now) (task_in linking.now) l }
        ensures ahead { OnOk result (IsAheadIn linking.now self.new) }
    {
        for look_up in look_ups {
            self.walk(linking, *look_up)?;
        }
        Ok(())
    }

    /// Follows what the declarations of a name ask for in a module, or where there is no name its const_asserts.
    fn take(
        &mut self,
        alloc: Global,
        linking: &Linking<'_>,
        table: &Table,
        name: Option<NameId>,
    ) -> Result<(), AllocError>
        requires ahead { IsAheadIn linking.now self.old }
        requires followed { (l : LookUp PathId NameId) → AsksFrom table.now name l → Followed (world_in linking.now) (task_in linking.now) l }
        ensures ahead { OnOk result (IsAheadIn linking.now self.new) }
    {
        let asked = asked_from(alloc, table, name)?;
        self.follow_all(linking, &asked)
    }

    /// Finds the paths that an entered module of an eager link imports from.
    fn bring_imports(&mut self, linking: &Linking<'_>, table: &Table) -> Result<(), AllocError>
        requires ahead { IsAheadIn linking.now self.old }
        requires eager { linking.now.is_eager ≡ true }
        requires there { Contains (world_in linking.now) table.now }
        requires entered { Entered (world_in linking.now) (task_in linking.now) table.now.path }
        ensures ahead { OnOk result (IsAheadIn linking.now self.new) }
    {
        for import in table.imports() {
            self.enter(linking, import.path)?;
        }
        Ok(())
    }

    /// Finds the symbol of a name that an entered module of an eager link declares, where there is a name.
    fn hold(
        &mut self,
        linking: &Linking<'_>,
        table: &Table,
        name: Option<NameId>,
    ) -> Result<(), AllocError>
        requires ahead { IsAheadIn linking.now self.old }
        requires eager { linking.now.is_eager ≡ true }
        requires there { Contains (world_in linking.now) table.now }
        requires entered { Entered (world_in linking.now) (task_in linking.now) table.now.path }
        requires declared { (n : NameId) → name ≡ Some n → Declares table.now n }
        ensures ahead { OnOk result (IsAheadIn linking.now self.new) }
    {
        match name {
            Some(name) => {
                let path = table.path();
                self.symbols.put(Symbol { path, name })?;
                Ok(())
            }
            None => Ok(()),
        }
    }

    /// Finds the symbols that an entered module of an eager link declares.
    fn hold_declared(&mut self, linking: &Linking<'_>, table: &Table) -> Result<(), AllocError>
        requires ahead { IsAheadIn linking.now self.old }
        requires eager { linking.now.is_eager ≡ true }
        requires there { Contains (world_in linking.now) table.now }
        requires entered { Entered (world_in linking.now) (task_in linking.now) table.now.path }
        ensures ahead { OnOk result (IsAheadIn linking.now self.new) }
    {
        for declaration in table.declarations() {
            self.hold(linking, table, declaration.name())?;
        }
        Ok(())
    }

    /// Takes an entered module: what its const_asserts ask for, and in an eager link all that it imports and declares.
    fn take_module(
        &mut self,
        alloc: Global,
        linking: &Linking<'_>,
        table: &Table,
    ) -> Result<(), AllocError>
        requires ahead { IsAheadIn linking.now self.old }
        requires there { Contains (world_in linking.now) table.now }
        requires entered { Entered (world_in linking.now) (task_in linking.now) table.now.path }
        ensures ahead { OnOk result (IsAheadIn linking.now self.new) }
    {
        self.take(alloc, linking, table, None)?;
        if !linking.is_eager {
            return Ok(());
        }
        self.bring_imports(linking, table)?;
        self.hold_declared(linking, table)
    }

    /// Takes the modules that were not taken before.
    fn take_modules(&mut self, alloc: Global, linking: &Linking<'_>) -> Result<(), AllocError>
        requires ahead { IsAheadIn linking.now self.old }
        requires entered { AreEntered linking.now }
        ensures ahead { OnOk result (IsAheadIn linking.now self.new) }
    {
        for place in self.modules..linking.tables.len() {
            self.take_module(alloc, linking, &linking.tables[place])?;
        }
        self.modules = linking.tables.len();
        Ok(())
    }

    /// Takes a reached symbol: what the declarations of its name ask for.
    fn take_symbol(
        &mut self,
        alloc: Global,
        linking: &Linking<'_>,
        symbol: Symbol<PathId, NameId>,
    ) -> Result<(), AllocError>
        requires ahead { IsAheadIn linking.now self.old }
        requires reached { Contains self.old.symbols symbol }
        ensures ahead { OnOk result (IsAheadIn linking.now self.new) }
    {
        match self.table(linking, symbol.path) {
            Some(table) => self.take(alloc, linking, table, Some(symbol.name)),
            None => Ok(()),
        }
    }

    /// Takes the symbols that were not taken before, and those that are found while they are taken.
    fn take_symbols(&mut self, alloc: Global, linking: &Linking<'_>) -> Result<(), AllocError>
        requires ahead { IsAheadIn linking.now self.old }
        ensures ahead { OnOk result (IsAheadIn linking.now self.new) }
    {
        for turn in self.turns..usize::MAX {
            self.turns = turn;
            let symbol = match self.symbols.list().get(turn) {
                Some(symbol) => *symbol,
                None => return Ok(()),
            };
            self.take_symbol(alloc, linking, symbol)?;
        }
        Ok(())
    }

    /// Goes on from a look-up that waited, where its module is there.
    fn wake(
        &mut self,
        linking: &Linking<'_>,
        look_up: LookUp<PathId, NameId>,
    ) -> Result<(), AllocError>
        requires ahead { IsAheadIn linking.now self.old }
        requires asked { IsAskedIn linking.now self.old look_up }
        ensures ahead { OnOk result (IsAheadIn linking.now self.new) }
        ensures keeps { OnOk result (KeepsAsked self.old self.new) }
    {
        if self.table(linking, look_up.path).is_none() {
            return Ok(());
        }
        match self.pass(linking, look_up)? {
            Some(next) => {
                self.walk(linking, next)?;
                Ok(())
            }
            None => Ok(()),
        }
    }

    /// Goes on from look-ups that waited.
    fn wake_all(
        &mut self,
        linking: &Linking<'_>,
        waited: &[LookUp<PathId, NameId>],
    ) -> Result<(), AllocError>
        requires ahead { IsAheadIn linking.now self.old }
        requires asked { (l : LookUp PathId NameId) → Contains waited.now l → IsAskedIn linking.now self.old l }
        ensures ahead { OnOk result (IsAheadIn linking.now self.new) }
    {
        for look_up in waited {
            self.wake(linking, *look_up)?;
        }
        Ok(())
    }

    /// Goes on from all look-ups that waited. Those whose modules are not there now wait no longer.
    fn resume(&mut self, alloc: Global, linking: &Linking<'_>) -> Result<(), AllocError>
        requires ahead { IsAheadIn linking.now self.old }
        ensures ahead { OnOk result (IsAheadIn linking.now self.new) }
    {
        let waited = replace(&mut self.waiting, Vec::new(alloc));
        self.wake_all(linking, &waited)
    }

    /// Puts down where the modules stand that were not taken before.
    fn place_new(&mut self, linking: &Linking<'_>) -> Result<(), AllocError>
        requires ahead { IsAheadIn linking.now self.old }
        ensures ahead { OnOk result (IsAheadIn linking.now self.new) }
    {
        for place in self.modules..linking.tables.len() {
            keyed::put(&mut self.places, linking.tables[place].path(), place)?;
        }
        Ok(())
    }

    /// Follows the kept names, from outside.
    fn follow_kept(&mut self, linking: &Linking<'_>) -> Result<(), AllocError>
        requires ahead { IsAheadIn linking.now self.old }
        ensures ahead { OnOk result (IsAheadIn linking.now self.new) }
    {
        for name in linking.kept {
            let look_up = LookUp {
                asker: None,
                path: linking.root,
                name: *name,
                from: Place::Always,
            };
            self.walk(linking, look_up)?;
        }
        Ok(())
    }

    /// The entered paths that were not told before.
    fn tell(&mut self, alloc: Global, linking: &Linking<'_>) -> Result<Vec<PathId>, AllocError>
        requires ahead { IsAheadIn linking.now self.old }
        ensures entered { IfOk result (λ ps. (p : PathId) → Contains ps.items p → Entered (world_in linking.now) (task_in linking.now) p) }
        ensures ahead { IsAheadIn linking.now self.new }
    {
        let mut paths = Vec::new(alloc);
        for place in self.told..self.entered.list().len() {
            paths.push(self.entered.list()[place])?;
        }
        self.told = self.entered.list().len();
        Ok(paths)
    }

    /// Begins with the root and the kept names. Refused for want of memory alone.
    pub fn begin(&mut self, linking: &Linking<'_>) -> Result<(), AllocError>
        requires ahead { IsAheadIn linking.now self.old }
        ensures ahead { OnOk result (IsAheadIn linking.now self.new) }
    {
        self.place_new(linking)?;
        self.enter(linking, linking.root)?;
        self.follow_kept(linking)
    }

    /// Goes on as far as the modules lead that are there now, each of which is entered, and tells the entered paths that were
    /// not told before. Each module, symbol and question is taken once, however often it is called. No clause says that all
    /// entered paths are told: who needs them all looks once more. Refused for want of memory alone.
    pub fn go_on(&mut self, alloc: Global, linking: &Linking<'_>) -> Result<Vec<PathId>, AllocError>
        requires ahead { IsAheadIn linking.now self.old }
        requires modules { AreEntered linking.now }
        ensures entered { IfOk result (λ ps. (p : PathId) → Contains ps.items p → Entered (world_in linking.now) (task_in linking.now) p) }
        ensures ahead { OnOk result (IsAheadIn linking.now self.new) }
    {
        self.place_new(linking)?;
        self.resume(alloc, linking)?;
        self.take_modules(alloc, linking)?;
        self.take_symbols(alloc, linking)?;
        self.tell(alloc, linking)
    }
}
