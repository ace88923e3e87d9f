//! The binders of a module, by what they mean.
ghost use Rattle.std.specs.Prelude.{◌≡◌, ◌<◌, ◌≤◌, ℕ, length, map, IfOk, OnOk};
ghost use Rattle.wesl_scope_occurrences.specs.Views.{occurrence_view, standing_view};
ghost use Rattle.wesl_scope_meanings.specs.Scopes.{is_visible};
ghost use Rattle.wesl_scope_meanings.specs.Keys.{opened};
ghost use Rattle.wesl_scope_clashes.specs.Clashes.{binder_at};
ghost use Rattle.wesl_scope_clashes.specs.Sightings.{in_module};

use crate::clash::Binder;
use crate::sightings::{Sighting, add, first};
use std::alloc::{AllocError, Global};
use wesl_scope_occurrences::{Occurrence, Standing};

/// From which place on a name that stands so is visible, if it is declared.
fn visible_from(standing: &Standing<'_>) -> Option<usize>
    ensures { (p : ℕ) → opened result p ≡ is_visible p (standing_view standing.now) }
{
    match standing {
        Standing::ModuleName => Some(0),
        Standing::Parameter => Some(0),
        Standing::Local { end } => Some(*end),
        Standing::Reference(_) => None,
        Standing::Word => None,
    }
}

/// Whether an identifier is a binder of the module's block.
pub fn is_in_module(occurrence: &Occurrence<'_>) -> bool
    ensures { result ≡ in_module (occurrence_view occurrence.now) }
{
    occurrence.standing.is_binder() && occurrence.block == 0
}

/// An identifier as a binder that is there from some place on.
fn sighting(occurrence: &Occurrence<'_>, from: usize) -> Sighting
    ensures binder { result.binder ≡ binder_at (occurrence_view occurrence.now) }
    ensures from { result.from ≡ from }
{
    Sighting {
        binder: Binder {
            ident: occurrence.ident,
            place: occurrence.place,
        },
        from,
    }
}

/// Binders by the numbers of what they mean.
pub struct Binders {
    /// those of each meaning
    pub of: Vec<Vec<Sighting>>,
}

impl Drop for Binders {
    fn drop(self) {
        let Binders { of: _ } = self;
    }
}

impl Binders {
    ghost use Rattle.wesl_scope_clashes.specs.Sightings.{is_seen, is_declared, first_met};
    ghost use Rattle.wesl_scope_clashes.specs.Finding.{look, FindsAs, or_else_found, found_at, seen_at, declared_at};

    /// Adds meanings without binders until there is one of this number.
    fn grow(&mut self, alloc: Global, meaning: usize) -> Result<(), AllocError>
        ensures there { OnOk result (meaning < length self.new.of.items) }
        ensures same { OnOk result (FindsAs (look self.new) (look self.old)) }
    {
        while self.of.len() <= meaning {
            self.of.push(Vec::new(alloc))?;
        }
        Ok(())
    }

    /// One more binder.
    fn add(&mut self, alloc: Global, meaning: usize, next: Sighting) -> Result<(), AllocError>
        ensures { OnOk result (FindsAs (look self.new) (or_else_found (look self.old) (found_at meaning next))) }
    {
        self.grow(alloc, meaning)?;
        add(&mut self.of[meaning], next)?;
        Ok(())
    }

    /// The first binder of a meaning that is there at a place and has no excepted number.
    pub fn first(&self, meaning: usize, place: usize, except: Option<usize>) -> Option<Binder>
        ensures { result ≡ look self.now meaning place except }
    {
        if meaning < self.of.len() {
            first(&self.of[meaning], place, except)
        } else {
            None
        }
    }

    /// An identifier, if it is a binder.
    fn meet(
        &mut self,
        alloc: Global,
        meaning: usize,
        occurrence: &Occurrence<'_>,
    ) -> Result<(), AllocError>
        ensures { OnOk result (FindsAs (look self.new) (or_else_found (look self.old) (seen_at meaning (occurrence_view occurrence.now)))) }
    {
        match visible_from(&occurrence.standing) {
            Some(from) => {
                self.add(alloc, meaning, sighting(occurrence, from))?;
                Ok(())
            }
            None => Ok(()),
        }
    }

    /// The binders among identifiers, each with its meaning: a binder is there where it is visible.
    pub fn visible(
        alloc: Global,
        all: &[Occurrence<'_>],
        means: &[usize],
    ) -> Result<Binders, AllocError>
        requires { length means.now ≡ length all.now }
        ensures { IfOk result (λ r. FindsAs (look r) (first_met is_seen means.now (map occurrence_view all.now))) }
    {
        let mut binders = Binders {
            of: Vec::new(alloc),
        };
        for i in 0..all.len() {
            binders.meet(alloc, means[i], &all[i])?;
        }
        Ok(binders)
    }

    /// An identifier, if it is a binder of the module's block.
    fn meet_global(
        &mut self,
        alloc: Global,
        meaning: usize,
        occurrence: &Occurrence<'_>,
    ) -> Result<(), AllocError>
        ensures { OnOk result (FindsAs (look self.new) (or_else_found (look self.old) (declared_at meaning (occurrence_view occurrence.now)))) }
    {
        if is_in_module(occurrence) {
            self.add(alloc, meaning, sighting(occurrence, occurrence.place))?;
            Ok(())
        } else {
            Ok(())
        }
    }

    /// The binders of the module's block among identifiers, each with its meaning: a binder is there from its own place on.
    pub fn of_module(
        alloc: Global,
        all: &[Occurrence<'_>],
        means: &[usize],
    ) -> Result<Binders, AllocError>
        requires { length means.now ≡ length all.now }
        ensures { IfOk result (λ r. FindsAs (look r) (first_met is_declared means.now (map occurrence_view all.now))) }
    {
        let mut binders = Binders {
            of: Vec::new(alloc),
        };
        for i in 0..all.len() {
            binders.meet_global(alloc, means[i], &all[i])?;
        }
        Ok(binders)
    }
}
