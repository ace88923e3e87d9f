//! Look-ups that were gone through, and what they lead to.
ghost use Rattle.std.specs.Prelude.{◌≡◌, ◌<◌, ◌++◌, ◌∷◌, ℕ, [], length, IfSome, OnOk, OnErr, Contains};
ghost use Rattle.wesl_link_symbols.specs.declared.ids.PathId.{PathId};
ghost use Rattle.wesl_tree_base.specs.declared.ids.NameId.{NameId};
ghost use Rattle.wesl_link_symbols.specs.Keyed.{Puts};
ghost use Rattle.wesl_link_reach.specs.Trodden.{KeepsNotes, NoneBefore, PutsStep, StepAt, symbol_of};

use std::alloc::{AllocError, Global};
use std::collections::HashMap;
use std::marker::Model;
use wesl_link_symbols::ids::{NameId, PathId};
use wesl_link_symbols::keyed::{self, Identity};
use wesl_link_symbols::symbols::{LookUp, Symbol};

/// The symbol that a look-up asks for.
pub fn question(look_up: LookUp<PathId, NameId>) -> Symbol<PathId, NameId>
    ensures { result ≡ symbol_of look_up }
{
    Symbol {
        path: look_up.path,
        name: look_up.name,
    }
}

/// Look-ups that were gone through, each with the symbol that it leads to, in the order in which they were kept. What one of
/// them comes to was kept before it.
pub struct Trodden {
    steps: Vec<(LookUp<PathId, NameId>, Symbol<PathId, NameId>)>,
    // Of each look-up where it stands, and of each question where it is asked first.
    places: HashMap<LookUp<PathId, NameId>, usize>,
    firsts: HashMap<Symbol<PathId, NameId>, usize>,
}

// By hand, so that it is proved once: a derived one is proved in each crate that lets go of a value.
impl Drop for Trodden {
    fn drop(self) {
        let Trodden {
            steps: _,
            places: _,
            firsts: _,
        } = self;
    }
}

impl Model for Trodden {
    ghost use Rattle.wesl_link_symbols.specs.declared.ids.PathId.{PathId};
    ghost use Rattle.wesl_tree_base.specs.declared.ids.NameId.{NameId};
    ghost use Rattle.wesl_link_reach.specs.Trodden.{AreNoted, TroddenSteps};

    ghost Value = { TroddenSteps PathId NameId };

    ghost view = { λ t. record { steps = t.steps.items } };

    ghost invariant = { λ t. AreNoted t.steps.items t.places.entries t.firsts.entries };
}

/// Notes a place at a key. Where memory is wanting the notes stay as they were.
fn note<K: Identity>(places: &mut HashMap<K, usize>, key: K, place: usize) -> Result<(), AllocError>
    ensures puts { OnOk result (Puts places.old.entries key place places.new.entries) }
    ensures stays { OnErr result (places.new.entries ≡ places.old.entries) }
{
    match places.insert(key, place) {
        Ok(_) => Ok(()),
        Err(_) => Err(AllocError),
    }
}

/// Notes that a question is asked first by a look-up which comes at this place, unless it is asked before.
fn note_first(
    firsts: &mut HashMap<Symbol<PathId, NameId>, usize>,
    question: Symbol<PathId, NameId>,
    place: usize,
) -> Result<(), AllocError>
    ensures kept { KeepsNotes firsts.old.entries question place firsts.new.entries }
    ensures noted { OnOk result ((n : ℕ) × Contains firsts.new.entries (question, n)) }
{
    match keyed::value_at(firsts, question) {
        Some(_) => Ok(()),
        None => Ok(note(firsts, question, place)?),
    }
}

impl Trodden {
    /// No look-ups. They take no memory.
    pub fn new(alloc: Global) -> Trodden
        ensures { result.steps ≡ [] }
    {
        Trodden {
            steps: Vec::new(alloc),
            places: HashMap::new(alloc),
            firsts: HashMap::new(alloc),
        }
    }

    /// How many there are.
    pub fn len(&self) -> usize
        ensures { result ≡ length self.now.steps }
    {
        self.steps.len()
    }

    /// What a look-up leads to, if it stands before this place.
    pub fn before(
        &self,
        look_up: LookUp<PathId, NameId>,
        place: usize,
    ) -> Option<Symbol<PathId, NameId>>
        ensures { IfSome result (λ s. (k : ℕ) × (k < place) × StepAt self.now.steps k look_up s) }
    {
        match keyed::value_at(&self.places, look_up) {
            Some(found) if found < place => Some(self.steps[found].1),
            _ => None,
        }
    }

    /// A place before which no look-up asks this question.
    pub fn first(&self, question: Symbol<PathId, NameId>) -> usize
        ensures { NoneBefore self.now.steps question result }
    {
        match keyed::value_at(&self.firsts, question) {
            Some(first) => first,
            None => self.steps.len(),
        }
    }

    /// Puts a look-up that leads to this symbol last, unless it is there. Refused for want of memory.
    pub fn put(
        &mut self,
        look_up: LookUp<PathId, NameId>,
        symbol: Symbol<PathId, NameId>,
    ) -> Result<(), AllocError>
        ensures { OnOk result (PutsStep self.old.steps look_up symbol self.new.steps) }
    {
        match keyed::value_at(&self.places, look_up) {
            Some(_) => Ok(()),
            None => self.push(look_up, symbol),
        }
    }

    /// Puts a look-up last that leads to this symbol.
    fn push(
        &mut self,
        look_up: LookUp<PathId, NameId>,
        symbol: Symbol<PathId, NameId>,
    ) -> Result<(), AllocError>
        ensures { OnOk result (self.new.steps ≡ self.old.steps ++ (look_up, symbol) ∷ []) }
    {
        let place = self.steps.len();
        note_first(&mut self.firsts, question(look_up), place)?;
        self.steps.push((look_up, symbol))?;
        note(&mut self.places, look_up, place)?;
        Ok(())
    }
}
