//! The search: each path and each symbol that is found is taken once, and all that is wrong is told.
ghost use Rattle.std.specs.Prelude.{◌≡◌, ◌≤◌, length, true, Some, IfOk, IfErr, OnOk, Contains};
ghost use Rattle.wesl_tree_base.specs.declared.ids.NameId.{NameId};
ghost use Rattle.wesl_link_symbols.specs.Names.{Declares};
ghost use Rattle.wesl_link_reach.specs.World.{Entered, Followed, Hops};
ghost use Rattle.wesl_link_flaws.specs.Askers.{AsksBy, Brings, IsTaken};
ghost use Rattle.wesl_link_flaws.specs.Flaws.{EndsAs, Halts};
ghost use Rattle.wesl_link_flaws.specs.Ends.{EndsWithin};
ghost use Rattle.wesl_link_flaws.specs.Searching.{AreDoneAt, AreNamedDone, BringsImports, FollowsKept, Grows, HasDeclared, HasEntered, HasEnteredWay, HasNamed, IsBrought, IsFollowed, IsModuleDone, IsReady, IsSound, IsTakenWhole, ModulesDone, SymbolsDone, TellsClashesAt, task_in, world_in};
ghost use Rattle.wesl_link_flaws.specs.Taking.{AreTaken, FollowsReferencesAt, IsDeclarationDoneAt, IsSearched, TellsUnclearAt};

use crate::asker::Asker;
use crate::clash::tell_clashes;
use crate::given::{Given, ask, missing};
use crate::hops::{close, keep_way};
use crate::keys::{self, Keys};
use crate::told::{End, Flaw, Told};
use std::alloc::{AllocError, Global};
use std::collections::HashMap;
use wesl_cond_choices::place::Place;
use wesl_link_symbols::ids::{NameId, PathId};
use wesl_link_symbols::keyed;
use wesl_link_symbols::symbols::{LookUp, Symbol};
use wesl_link_symbols::table::Table;
use wesl_link_trails::{Ends, question};

/// The entered paths and the reached symbols that were found, and all that is told.
#[derive(Drop)]
pub struct Search {
    pub entered: Keys<PathId>,
    pub symbols: Keys<Symbol<PathId, NameId>>,
    pub told: Keys<Told<PathId, NameId>>,
    /// What each look-up was answered that a walk came by: the next one, or its end there.
    pub answers: HashMap<
        LookUp<PathId, NameId>,
        Result<LookUp<PathId, NameId>, End<PathId, NameId>>,
    >,
    /// How the hops end that walks came by.
    pub ends: Ends<End<PathId, NameId>>,
}

/// The lower one of two numbers.
fn lower(first: usize, second: usize) -> usize
    ensures first { result ≤ first }
    ensures second { result ≤ second }
{
    if first < second { first } else { second }
}

impl Search {
    /// Tells of each name that clashes in the module at an entered path.
    fn tell_clashes_at(&mut self, given: &Given<'_>, path: PathId) -> Result<(), AllocError>
        requires ready { IsReady given.now }
        requires sound { IsSound given.now self.old }
        requires entered { Entered (world_in given.now) (task_in given.now) path }
        ensures sound { OnOk result (IsSound given.now self.new) }
        ensures grows { OnOk result (Grows self.old self.new) }
        ensures told { OnOk result (TellsClashesAt given.now self.new path) }
        ensures ends { self.new.ends ≡ self.old.ends }
    {
        match given.table(path) {
            Some(table) => Ok(tell_clashes(table, &mut self.told)?),
            None => Ok(()),
        }
    }

    /// Puts an entered path among those that were found.
    fn enter(&mut self, given: &Given<'_>, path: PathId) -> Result<(), AllocError>
        requires ready { IsReady given.now }
        requires sound { IsSound given.now self.old }
        requires entered { Entered (world_in given.now) (task_in given.now) path }
        ensures sound { OnOk result (IsSound given.now self.new) }
        ensures grows { OnOk result (Grows self.old self.new) }
        ensures there { OnOk result (HasEntered self.new path) }
        ensures ends { self.new.ends ≡ self.old.ends }
    {
        if keys::has(&self.entered, path) {
            return Ok(());
        }
        self.tell_clashes_at(given, path)?;
        keys::put(&mut self.entered, path)?;
        Ok(())
    }

    /// What a look-up is answered: its module is asked once.
    fn hop(
        &mut self,
        given: &Given<'_>,
        look_up: LookUp<PathId, NameId>,
    ) -> Result<Result<LookUp<PathId, NameId>, End<PathId, NameId>>, AllocError>
        requires ready { IsReady given.now }
        requires sound { IsSound given.now self.old }
        ensures sound { OnOk result (IsSound given.now self.new) }
        ensures grows { Grows self.old self.new }
        ensures ends { self.new.ends ≡ self.old.ends }
        ensures on { IfOk result (λ r. IfOk r (λ n. Hops (world_in given.now) look_up n)) }
        ensures ended { IfOk result (λ r. IfErr r (λ e. Halts (world_in given.now) look_up e)) }
    {
        if let Some(answer) = keyed::value_at(&self.answers, look_up) {
            return Ok(answer);
        }
        let answer = given.hop(look_up);
        keyed::put(&mut self.answers, look_up, answer)?;
        Ok(answer)
    }

    /// Goes on from a look-up to the next, or to its end: where it ends there, or where it is known how its hop ends and all that
    /// is asked from it on is among so many of the first questions.
    fn step(
        &mut self,
        given: &Given<'_>,
        look_up: LookUp<PathId, NameId>,
        bound: usize,
    ) -> Result<Result<LookUp<PathId, NameId>, End<PathId, NameId>>, AllocError>
        requires ready { IsReady given.now }
        requires sound { IsSound given.now self.old }
        requires entered { HasEntered self.old look_up.path }
        ensures sound { OnOk result (IsSound given.now self.new) }
        ensures grows { Grows self.old self.new }
        ensures ends { self.new.ends ≡ self.old.ends }
        ensures on { IfOk result (λ r. IfOk r (λ n. Hops (world_in given.now) look_up n)) }
        ensures ended { IfOk result (λ r. IfErr r (λ e. EndsWithin (world_in given.now) self.new.entered.list.items self.new.ends.asked.items bound look_up e)) }
    {
        match self.hop(given, look_up)? {
            Ok(next) => match self.ends.before(question(look_up), next, bound) {
                Some(end) => Ok(Err(end)),
                None => Ok(Ok(next)),
            },
            Err(end) => Ok(Err(end)),
        }
    }

    /// How a look-up that is followed ends. Each path that its walk comes to is put among those that were found. A hop that any
    /// walk came by is not walked again where that asks nothing twice.
    fn end_of(
        &mut self,
        alloc: Global,
        given: &Given<'_>,
        start: LookUp<PathId, NameId>,
    ) -> Result<End<PathId, NameId>, AllocError>
        requires ready { IsReady given.now }
        requires sound { IsSound given.now self.old }
        requires followed { Followed (world_in given.now) (task_in given.now) start }
        ensures sound { OnOk result (IsSound given.now self.new) }
        ensures grows { OnOk result (Grows self.old self.new) }
        ensures ends { IfOk result (EndsAs (world_in given.now) start) }
        ensures paths { OnOk result (HasEnteredWay given.now self.new start) }
    {
        let mut trail = Vec::new(alloc);
        let mut asked = keys::none(alloc);
        let mut bound = self.ends.asked.len();
        let mut current = start;
        'hops: loop {
            self.enter(given, current.path)?;
            let wanted = question(current);
            if keys::has(&asked, wanted) {
                close(
                    alloc,
                    given,
                    &self.entered.list,
                    &mut self.ends,
                    &mut trail,
                    start,
                    current,
                )?;
                return Ok(missing(current));
            }
            match self.step(given, current, bound)? {
                Ok(next) => {
                    bound = lower(bound, self.ends.first(wanted));
                    keys::put(&mut asked, wanted)?;
                    trail.push(current)?;
                    current = next;
                }
                Err(end) => {
                    keep_way(
                        given,
                        &self.entered.list,
                        &mut self.ends,
                        &mut trail,
                        start,
                        current,
                        bound,
                        end,
                    )?;
                    return Ok(end);
                }
            }
        }
    }

    /// Follows a look-up of the asker to its end: a symbol that is reached, or something wrong, which is told.
    fn follow(
        &mut self,
        alloc: Global,
        given: &Given<'_>,
        asker: Asker<PathId, NameId>,
        start: LookUp<PathId, NameId>,
    ) -> Result<(), AllocError>
        requires ready { IsReady given.now }
        requires sound { IsSound given.now self.old }
        requires asks { AsksBy (task_in given.now) (world_in given.now) asker start }
        ensures sound { OnOk result (IsSound given.now self.new) }
        ensures grows { OnOk result (Grows self.old self.new) }
        ensures followed { OnOk result (IsFollowed given.now self.new asker start) }
    {
        match self.end_of(alloc, given, start)? {
            End::Found(symbol) => Ok(keys::put(&mut self.symbols, symbol)?),
            End::Flawed(flaw, at) => Ok(keys::put(&mut self.told, Told { flaw, asker, at })?),
        }
    }

    /// Tells of each name that stands for two things in a declaration that is taken.
    fn tell_unclear(
        &mut self,
        given: &Given<'_>,
        table: &Table,
        index: usize,
    ) -> Result<(), AllocError>
        requires sound { IsSound given.now self.old }
        requires taken { AreTaken given.now table.now index }
        ensures sound { OnOk result (IsSound given.now self.new) }
        ensures grows { OnOk result (Grows self.old self.new) }
        ensures told { OnOk result (TellsUnclearAt self.new table.now index) }
    {
        for (number, name) in table.declarations()[index].unclear().iter().enumerate() {
            let path = table.path();
            let found = Told {
                flaw: Flaw::Unsure(*name),
                asker: Asker::Unclear(path, index, number),
                at: path,
            };
            keys::put(&mut self.told, found)?;
        }
        Ok(())
    }

    /// Follows each reference of a declaration that is taken.
    fn follow_references(
        &mut self,
        alloc: Global,
        given: &Given<'_>,
        table: &Table,
        index: usize,
    ) -> Result<(), AllocError>
        requires ready { IsReady given.now }
        requires sound { IsSound given.now self.old }
        requires taken { AreTaken given.now table.now index }
        ensures sound { OnOk result (IsSound given.now self.new) }
        ensures grows { OnOk result (Grows self.old self.new) }
        ensures followed { OnOk result (FollowsReferencesAt given.now self.new table.now index) }
    {
        for (number, reference) in table.declarations()[index].references().iter().enumerate() {
            let asker = Asker::Named(table.path(), index, number);
            self.follow(alloc, given, asker, ask(table, reference))?;
        }
        Ok(())
    }

    /// Takes a declaration: what is unclear in it is told, and its references are followed.
    fn take_declaration(
        &mut self,
        alloc: Global,
        given: &Given<'_>,
        table: &Table,
        index: usize,
    ) -> Result<(), AllocError>
        requires ready { IsReady given.now }
        requires sound { IsSound given.now self.old }
        requires taken { AreTaken given.now table.now index }
        ensures sound { OnOk result (IsSound given.now self.new) }
        ensures grows { OnOk result (Grows self.old self.new) }
        ensures done { OnOk result (IsDeclarationDoneAt given.now self.new table.now index) }
    {
        self.tell_unclear(given, table, index)?;
        self.follow_references(alloc, given, table, index)?;
        Ok(())
    }

    /// Takes the declarations of a name, or where there is none the const_asserts.
    fn take_named(
        &mut self,
        alloc: Global,
        given: &Given<'_>,
        table: &Table,
        name: Option<NameId>,
    ) -> Result<(), AllocError>
        requires ready { IsReady given.now }
        requires sound { IsSound given.now self.old }
        requires there { Contains (world_in given.now) table.now }
        requires taken { IsTaken (task_in given.now) (world_in given.now) table.now.path name }
        ensures sound { OnOk result (IsSound given.now self.new) }
        ensures grows { OnOk result (Grows self.old self.new) }
        ensures done { OnOk result (AreNamedDone given.now self.new table.now name) }
    {
        let mut at = table.latest_of(name);
        'declarations: while let Some(index) = at {
            self.take_declaration(alloc, given, table, index)?;
            at = table.earlier_of(index, name);
        }
        Ok(())
    }

    /// Takes the declarations of a name in the module at a path, or where there is none its const_asserts.
    fn take_at(
        &mut self,
        alloc: Global,
        given: &Given<'_>,
        path: PathId,
        name: Option<NameId>,
    ) -> Result<(), AllocError>
        requires ready { IsReady given.now }
        requires sound { IsSound given.now self.old }
        requires taken { IsTaken (task_in given.now) (world_in given.now) path name }
        ensures sound { OnOk result (IsSound given.now self.new) }
        ensures grows { OnOk result (Grows self.old self.new) }
        ensures done { OnOk result (AreDoneAt given.now self.new path name) }
    {
        match given.table(path) {
            Some(table) => Ok(self.take_named(alloc, given, table, name)?),
            None => Ok(()),
        }
    }

    /// Finds the path that an import of an eager link brings, and tells where no module is there.
    fn bring(
        &mut self,
        given: &Given<'_>,
        asker: Asker<PathId, NameId>,
        path: PathId,
    ) -> Result<(), AllocError>
        requires ready { IsReady given.now }
        requires sound { IsSound given.now self.old }
        requires brings { Brings (task_in given.now) (world_in given.now) asker path }
        ensures sound { OnOk result (IsSound given.now self.new) }
        ensures grows { OnOk result (Grows self.old self.new) }
        ensures brought { OnOk result (IsBrought given.now self.new asker path) }
    {
        self.enter(given, path)?;
        match given.table(path) {
            Some(_) => Ok(()),
            None => {
                let found = Told {
                    flaw: Flaw::NoModule,
                    asker,
                    at: path,
                };
                Ok(keys::put(&mut self.told, found)?)
            }
        }
    }

    /// Finds the paths that an entered module of an eager link imports from.
    fn bring_imports(&mut self, given: &Given<'_>, table: &Table) -> Result<(), AllocError>
        requires ready { IsReady given.now }
        requires sound { IsSound given.now self.old }
        requires eager { given.now.is_eager ≡ true }
        requires there { Contains (world_in given.now) table.now }
        requires entered { Entered (world_in given.now) (task_in given.now) table.now.path }
        ensures sound { OnOk result (IsSound given.now self.new) }
        ensures grows { OnOk result (Grows self.old self.new) }
        ensures brought { OnOk result (BringsImports given.now self.new table.now) }
    {
        for (number, import) in table.imports().iter().enumerate() {
            self.bring(given, Asker::Imported(table.path(), number), import.path)?;
        }
        Ok(())
    }

    /// Finds the symbol of a name that an entered module of an eager link declares, where there is a name.
    fn hold_named(
        &mut self,
        given: &Given<'_>,
        table: &Table,
        name: Option<NameId>,
    ) -> Result<(), AllocError>
        requires sound { IsSound given.now self.old }
        requires eager { given.now.is_eager ≡ true }
        requires there { Contains (world_in given.now) table.now }
        requires entered { Entered (world_in given.now) (task_in given.now) table.now.path }
        requires declared { (n : NameId) → name ≡ Some n → Declares table.now n }
        ensures sound { OnOk result (IsSound given.now self.new) }
        ensures grows { OnOk result (Grows self.old self.new) }
        ensures held { OnOk result (HasNamed self.new table.now name) }
    {
        match name {
            Some(name) => {
                let path = table.path();
                Ok(keys::put(&mut self.symbols, Symbol { path, name })?)
            }
            None => Ok(()),
        }
    }

    /// Finds the symbols that an entered module of an eager link declares.
    fn hold_declared(&mut self, given: &Given<'_>, table: &Table) -> Result<(), AllocError>
        requires sound { IsSound given.now self.old }
        requires eager { given.now.is_eager ≡ true }
        requires there { Contains (world_in given.now) table.now }
        requires entered { Entered (world_in given.now) (task_in given.now) table.now.path }
        ensures sound { OnOk result (IsSound given.now self.new) }
        ensures grows { OnOk result (Grows self.old self.new) }
        ensures held { OnOk result (HasDeclared self.new table.now) }
    {
        for declaration in table.declarations() {
            self.hold_named(given, table, declaration.name())?;
        }
        Ok(())
    }

    /// Finds what an eager link takes with the module at an entered path.
    fn take_whole(&mut self, given: &Given<'_>, path: PathId) -> Result<(), AllocError>
        requires ready { IsReady given.now }
        requires sound { IsSound given.now self.old }
        requires eager { given.now.is_eager ≡ true }
        requires entered { Entered (world_in given.now) (task_in given.now) path }
        ensures sound { OnOk result (IsSound given.now self.new) }
        ensures grows { OnOk result (Grows self.old self.new) }
        ensures whole { OnOk result (IsTakenWhole given.now self.new path) }
    {
        match given.table(path) {
            Some(table) => {
                self.bring_imports(given, table)?;
                self.hold_declared(given, table)?;
                Ok(())
            }
            None => Ok(()),
        }
    }

    /// Takes an entered path: the const_asserts of its module, and in an eager link all that is taken with it.
    fn take_module(
        &mut self,
        alloc: Global,
        given: &Given<'_>,
        path: PathId,
    ) -> Result<(), AllocError>
        requires ready { IsReady given.now }
        requires sound { IsSound given.now self.old }
        requires entered { HasEntered self.old path }
        ensures sound { OnOk result (IsSound given.now self.new) }
        ensures grows { OnOk result (Grows self.old self.new) }
        ensures done { OnOk result (IsModuleDone given.now self.new path) }
    {
        self.take_at(alloc, given, path, None)?;
        if !given.is_eager {
            return Ok(());
        }
        self.take_whole(given, path)?;
        Ok(())
    }

    /// Takes the entered paths from a place on until each is taken, and says how many there are.
    fn take_modules(
        &mut self,
        alloc: Global,
        given: &Given<'_>,
        start: usize,
    ) -> Result<usize, AllocError>
        requires ready { IsReady given.now }
        requires sound { IsSound given.now self.old }
        requires within { start ≤ length self.old.entered.list.items }
        requires done { ModulesDone given.now self.old start }
        ensures sound { OnOk result (IsSound given.now self.new) }
        ensures grows { OnOk result (Grows self.old self.new) }
        ensures done { IfOk result (ModulesDone given.now self.new) }
        ensures all { IfOk result (λ n. n ≡ length self.new.entered.list.items) }
    {
        let mut place = start;
        'modules: while place < self.entered.list.len() {
            let path = self.entered.list[place];
            self.take_module(alloc, given, path)?;
            place += 1;
        }
        Ok(place)
    }

    /// Takes entered paths and reached symbols until each is taken.
    fn take_all(&mut self, alloc: Global, given: &Given<'_>) -> Result<(), AllocError>
        requires ready { IsReady given.now }
        requires sound { IsSound given.now self.old }
        ensures sound { OnOk result (IsSound given.now self.new) }
        ensures grows { OnOk result (Grows self.old self.new) }
        ensures modules { OnOk result (ModulesDone given.now self.new (length self.new.entered.list.items)) }
        ensures symbols { OnOk result (SymbolsDone given.now self.new (length self.new.symbols.list.items)) }
    {
        let mut place = 0;
        let mut turn = 0;
        'turns: loop {
            place = self.take_modules(alloc, given, place)?;
            if turn >= self.symbols.list.len() {
                return Ok(());
            }
            let symbol = self.symbols.list[turn];
            self.take_at(alloc, given, symbol.path, Some(symbol.name))?;
            turn += 1;
        }
    }

    /// Follows the kept names, from outside.
    fn follow_kept(&mut self, alloc: Global, given: &Given<'_>) -> Result<(), AllocError>
        requires ready { IsReady given.now }
        requires sound { IsSound given.now self.old }
        ensures sound { OnOk result (IsSound given.now self.new) }
        ensures grows { OnOk result (Grows self.old self.new) }
        ensures followed { OnOk result (FollowsKept given.now self.new) }
    {
        for name in given.kept {
            let look_up = LookUp {
                asker: None,
                path: given.root,
                name: *name,
                from: Place::Always,
            };
            self.follow(alloc, given, Asker::Kept(*name), look_up)?;
        }
        Ok(())
    }

    /// Finds all that is entered and reached, and tells all that is wrong.
    pub fn run(&mut self, alloc: Global, given: &Given<'_>) -> Result<(), AllocError>
        requires ready { IsReady given.now }
        requires sound { IsSound given.now self.old }
        ensures searched { OnOk result (IsSearched given.now self.new) }
    {
        self.enter(given, given.root)?;
        self.follow_kept(alloc, given)?;
        self.take_all(alloc, given)?;
        Ok(())
    }
}
