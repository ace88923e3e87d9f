//! How hops end that walks came by.
ghost use Rattle.std.specs.Prelude.{◌≡◌, ◌≤◌, ℕ, [], length, IfSome, OnOk, Contains};
ghost use Rattle.wesl_link_symbols.specs.declared.symbols.Symbol.{Symbol};
ghost use Rattle.wesl_link_symbols.specs.Keyed.{PutsKey};
ghost use Rattle.wesl_link_reach.specs.Trodden.{symbol_of};
ghost use Rattle.wesl_link_reach.specs.Loading.{GoesOn};
ghost use Rattle.wesl_link_symbols.specs.declared.ids.PathId.{PathId};
ghost use Rattle.wesl_tree_base.specs.declared.ids.NameId.{NameId};
ghost use Rattle.wesl_link_symbols.specs.declared.symbols.LookUp.{LookUp};
ghost use Rattle.wesl_link_trails.specs.Ends.{AreNumbered, IsNotBefore, KeepsEnd};

use std::alloc::{AllocError, Global};
use std::collections::HashMap;
use wesl_link_symbols::ids::{NameId, PathId};
use wesl_link_symbols::keyed;
use wesl_link_symbols::symbols::{LookUp, Symbol};

/// What a look-up asks, whoever asks.
pub fn question(look_up: LookUp<PathId, NameId>) -> Symbol<PathId, NameId>
    ensures { result ≡ symbol_of look_up }
{
    Symbol {
        path: look_up.path,
        name: look_up.name,
    }
}

/// What a hop asks, how it ends, and how many of the questions that were asked first hold all that is asked from it on.
#[derive(Copy, Drop)]
pub struct Ending<E> {
    pub asked: Symbol<PathId, NameId>,
    pub end: E,
    pub until: usize,
}

// By hand, since a derived copy asks each part for one, which may be refused.
impl<E: Copy> Clone for Ending<E> {
    ghost use Rattle.std.specs.Prelude.{⊤};

    ghost is_clone = { λ old new. new ≡ old };

    ghost is_infallible = { λ _. ⊤ };

    fn clone(&self) -> Result<Ending<E>, AllocError> {
        Ok(*self)
    }
}

/// Questions in the order in which walks asked them first, and how hops end.
#[derive(Drop)]
pub struct Ends<E: Drop> {
    pub asked: Vec<Symbol<PathId, NameId>>,
    /// Of each question where it stands.
    pub firsts: HashMap<Symbol<PathId, NameId>, usize>,
    /// Of each look-up how a hop to it ends.
    pub kept: HashMap<LookUp<PathId, NameId>, Ending<E>>,
}

impl<E: Copy + Drop> Ends<E> {
    /// No questions and no hops. They take no memory.
    pub fn new(alloc: Global) -> Ends<E>
        ensures numbered { AreNumbered result.asked.items result.firsts.entries }
        ensures asked { result.asked.items ≡ [] }
        ensures kept { result.kept.entries ≡ [] }
    {
        Ends {
            asked: Vec::new(alloc),
            firsts: HashMap::new(alloc),
            kept: HashMap::new(alloc),
        }
    }

    /// So many of the questions that were asked first do not have this one among them.
    pub fn first(&self, question: Symbol<PathId, NameId>) -> usize
        requires numbered { AreNumbered self.now.asked.items self.now.firsts.entries }
        ensures { IsNotBefore self.now.asked.items question result }
    {
        match keyed::value_at(&self.firsts, question) {
            Some(first) => first,
            None => self.asked.len(),
        }
    }

    /// How the hop of a question to a look-up ends, if that is known and all that is asked from it on is among so many of the first
    /// questions.
    pub fn before(
        &self,
        question: Symbol<PathId, NameId>,
        next: LookUp<PathId, NameId>,
        bound: usize,
    ) -> Option<E>
        ensures { IfSome result (λ e. (n : ℕ) × (n ≤ bound) × Contains self.now.kept.entries (next, record { asked = question; end = e; until = n })) }
    {
        match keyed::value_at(&self.kept, next) {
            Some(found) if found.asked == question && found.until <= bound => Some(found.end),
            _ => None,
        }
    }

    /// Notes that a question was asked. Refused for want of memory.
    pub fn note(&mut self, question: Symbol<PathId, NameId>) -> Result<(), AllocError>
        requires numbered { AreNumbered self.old.asked.items self.old.firsts.entries }
        ensures numbered { OnOk result (AreNumbered self.new.asked.items self.new.firsts.entries) }
        ensures asked { OnOk result (PutsKey self.old.asked.items question self.new.asked.items) }
        ensures kept { self.new.kept ≡ self.old.kept }
    {
        match keyed::value_at(&self.firsts, question) {
            Some(_) => Ok(()),
            None => {
                keyed::put(&mut self.firsts, question, self.asked.len())?;
                self.asked.push(question)?;
                Ok(())
            }
        }
    }

    /// Notes what look-ups ask. Refused for want of memory.
    pub fn note_all(&mut self, look_ups: &[LookUp<PathId, NameId>]) -> Result<(), AllocError>
        requires numbered { AreNumbered self.old.asked.items self.old.firsts.entries }
        ensures numbered { OnOk result (AreNumbered self.new.asked.items self.new.firsts.entries) }
        ensures on { OnOk result (GoesOn self.old.asked.items self.new.asked.items) }
        ensures asked { OnOk result ((l : LookUp PathId NameId) → Contains look_ups.now l → Contains self.new.asked.items (symbol_of l)) }
        ensures kept { self.new.kept ≡ self.old.kept }
    {
        for look_up in look_ups {
            self.note(question(*look_up))?;
        }
        Ok(())
    }

    /// Keeps how the hop of a question to a look-up ends, unless that is known. All that is asked from it on is among the questions
    /// that were asked so far. Refused for want of memory.
    fn put(
        &mut self,
        asked: Symbol<PathId, NameId>,
        next: LookUp<PathId, NameId>,
        end: E,
    ) -> Result<(), AllocError>
        ensures kept { OnOk result (KeepsEnd self.old.kept.entries next (record { asked = asked; end = end; until = length self.old.asked.items }) self.new.kept.entries) }
        ensures asked { self.new.asked ≡ self.old.asked }
        ensures firsts { self.new.firsts ≡ self.old.firsts }
    {
        match keyed::value_at(&self.kept, next) {
            Some(found) if found.asked == asked => Ok(()),
            _ => {
                let until = self.asked.len();
                keyed::put(&mut self.kept, next, Ending { asked, end, until })
            }
        }
    }

    /// Notes what a look-up asks, and keeps how its hop to the next one ends, unless that is known. Refused for want of memory.
    pub fn keep(
        &mut self,
        look_up: LookUp<PathId, NameId>,
        next: LookUp<PathId, NameId>,
        end: E,
    ) -> Result<(), AllocError>
        requires numbered { AreNumbered self.old.asked.items self.old.firsts.entries }
        ensures numbered { OnOk result (AreNumbered self.new.asked.items self.new.firsts.entries) }
        ensures asked { OnOk result (PutsKey self.old.asked.items (symbol_of look_up) self.new.asked.items) }
        ensures kept { OnOk result (KeepsEnd self.old.kept.entries next (record { asked = symbol_of look_up; end = end; until = length self.new.asked.items }) self.new.kept.entries) }
    {
        let asked = question(look_up);
        self.note(asked)?;
        self.put(asked, next, end)
    }
}
