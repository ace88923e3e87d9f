//! The look-ups that a walk has come by.
ghost use Rattle.std.specs.Prelude.{◌≡◌, ◌≤◌, ◌++◌, ◌∷◌, [], OnOk};
ghost use Rattle.wesl_link_symbols.specs.Keyed.{PutsKey};
ghost use Rattle.wesl_link_reach.specs.Trodden.{NoneBefore, symbol_of};

use crate::reached::Symbols;
use crate::trodden::{Trodden, question};
use std::alloc::{AllocError, Global};
use wesl_link_symbols::ids::{NameId, PathId};
use wesl_link_symbols::symbols::LookUp;

/// The look-ups that a walk has come by, in order; what they ask; and a place before which no trodden look-up asks that.
#[derive(Drop)]
pub struct Trail {
    pub asked: Vec<LookUp<PathId, NameId>>,
    pub questions: Symbols,
    pub bound: usize,
}

impl Trail {
    /// No look-ups, where so many are trodden. They take no memory.
    pub fn new(alloc: Global, bound: usize) -> Trail
        ensures asked { result.asked.items ≡ [] }
        ensures questions { result.questions.keys ≡ [] }
        ensures bound { result.bound ≡ bound }
    {
        Trail {
            asked: Vec::new(alloc),
            questions: Symbols::new(alloc),
            bound,
        }
    }

    /// Goes on by a look-up. Refused for want of memory.
    pub fn push(
        &mut self,
        trodden: &Trodden,
        look_up: LookUp<PathId, NameId>,
    ) -> Result<(), AllocError>
        ensures asked { OnOk result (self.new.asked.items ≡ self.old.asked.items ++ look_up ∷ []) }
        ensures questions { OnOk result (PutsKey self.old.questions.keys (symbol_of look_up) self.new.questions.keys) }
        ensures lower { OnOk result (self.new.bound ≤ self.old.bound) }
        ensures bound { OnOk result (NoneBefore trodden.now.steps (symbol_of look_up) self.new.bound) }
    {
        let question = question(look_up);
        self.bound = lower(self.bound, trodden.first(question));
        self.questions.put(question)?;
        self.asked.push(look_up)?;
        Ok(())
    }
}

fn lower(a: usize, b: usize) -> usize
    ensures first { result ≤ a }
    ensures second { result ≤ b }
{
    if a < b { a } else { b }
}
