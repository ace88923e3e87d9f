//! Which of places in a row are seen from another place, told by where this changes along the row.
ghost use Rattle.std.specs.Prelude.{◌≡◌, ℕ, ◌^◌, ◌<◌, ◌≤◌, ◌&&◌, ◌++◌, ◌∷◌, [], false, not, nat_lt, if◌then◌else◌, List, IfOk, IfSome, OnOk};
ghost use Rattle.wesl_cond_choices.specs.Choices.{has};
ghost use Rattle.wesl_cond_choices.specs.declared.place.Place.{Place};
ghost use Rattle.wesl_cond_covers.specs.Sight as sight;
ghost use Rattle.wesl_cond_covers.specs.Sight.{changes_from};
ghost use Rattle.wesl_cond_covers.specs.Unseen.{AreUnseen};

use crate::covers::Covers;
use std::alloc::{AllocError, Global};
use wesl_cond_choices::alive::Alive;
use wesl_cond_choices::choices::Choices;
use wesl_cond_choices::place::Place;

/// Places in a row, with unions by which those are passed at once that are not seen, or are all seen.
pub struct Sights {
    places: Vec<Place>,
    covers: Covers,
}

// By hand, so that it is proved once: a derived one is proved in each crate that lets go of a value.
impl Drop for Sights {
    fn drop(self) {
        let Sights {
            places: _,
            covers: _,
        } = self;
    }
}

/// The choices of as many flags that are not in a set.
fn others(alloc: Global, set: &Choices) -> Result<Choices, AllocError>
    ensures { IfOk result (λ c. (k : ℕ) → has c k ≡ (nat_lt k (2 ^ set.now.flags) && not (has set.now k))) }
{
    let mut all = Choices::all(alloc, set.flags())?;
    all.without(set);
    Ok(all)
}

/// The choices that do not keep a place, where those are known that do.
fn others_of(alloc: Global, alive: &Alive, place: Place) -> Result<Option<Choices>, AllocError>
    ensures { IfOk result (λ o. IfSome o (λ c. sight.AreOthers alive.now place c)) }
{
    match alive.choices_of(place) {
        Some(set) => {
            let others = others(alloc, set)?;
            Ok(Some(others))
        }
        None => Ok(None),
    }
}

/// Whether what stands at a place is seen from another.
fn is_seen(alive: &Alive, from: Place, place: Place) -> bool
    ensures { result ≡ sight.sees alive.now from place }
{
    place == Place::Always || alive.together(from, place)
}

/// Whether sight changes at a place: where no place was seen before, at one that is, and else at one that is not, though some
/// choice keeps it.
fn changes_at(alive: &Alive, from: Place, is_seeing: bool, place: Place) -> bool
    ensures { result ≡ sight.changes_at alive.now from is_seeing place }
{
    let is_seen = is_seen(alive, from, place);
    if is_seeing {
        !is_seen && alive.together(place, place)
    } else {
        is_seen
    }
}

/// Whether places are seen behind one at which sight changes, if it does, by whether they were before.
fn turned(is_seeing: bool, is_change: bool) -> bool
    ensures { result ≡ (if is_change then not is_seeing else is_seeing) }
{
    if is_change { !is_seeing } else { is_seeing }
}

/// Adds the index, if sight changes there.
fn add_if(changes: &mut Vec<usize>, index: usize, is_change: bool) -> Result<(), AllocError>
    ensures { OnOk result (changes.new.items ≡ changes.old.items ++ (if is_change then index ∷ [] else [])) }
{
    if is_change {
        changes.push(index)?;
    }
    Ok(())
}

impl Sights {
    ghost use Rattle.wesl_cond_covers.specs.SightsView.{AreSightsOf};

    /// Of no places. It takes no memory.
    pub fn none(alloc: Global) -> Sights
        ensures { (alive : List (List Place)) → AreSightsOf alive [] result }
    {
        Sights {
            places: Vec::new(alloc),
            covers: Covers::none(alloc),
        }
    }

    /// Of these places, by the choices that keep them.
    ///
    /// # Errors
    /// Want of memory.
    pub fn of(alloc: Global, alive: &Alive, places: Vec<Place>) -> Result<Sights, AllocError>
        ensures { IfOk result (λ s. AreSightsOf alive.now places.items s) }
    {
        let covers = Covers::of(alloc, alive, &places)?;
        Ok(Sights { places, covers })
    }

    /// The index of the first place, from one index on, that is not passed: none of those before it is seen from `from`.
    pub fn next(&self, alive: &Alive, from: Place, index: usize) -> usize
        ensures ahead { index ≤ result }
        ensures unseen { (places : List Place) → AreSightsOf alive.now places self.now → AreUnseen alive.now places from index result }
    {
        self.covers.next(alive, from, index)
    }

    /// The same of the first place at which sight may change, by the choices that do not keep `from`, where they are known.
    fn next_change(
        &self,
        alive: &Alive,
        from: Place,
        others: Option<&Choices>,
        is_seeing: bool,
        index: usize,
    ) -> usize
        requires { IfSome others (λ c. sight.AreOthers alive.now from c.now) }
        ensures ahead { index ≤ result }
        ensures same { (places : List Place) → AreSightsOf alive.now places self.now → sight.StaysSo alive.now from is_seeing places index result }
    {
        if !is_seeing {
            return self.covers.next(alive, from, index);
        }
        match others {
            Some(others) => self.covers.next_apart(others, index),
            None => index,
        }
    }

    /// Adds the indices at which sight changes.
    fn add_changes(
        &self,
        alive: &Alive,
        changes: &mut Vec<usize>,
        from: Place,
        others: Option<&Choices>,
    ) -> Result<(), AllocError>
        requires others { IfSome others (λ c. sight.AreOthers alive.now from c.now) }
        requires empty { changes.old.items ≡ [] }
        ensures { OnOk result ((places : List Place) → AreSightsOf alive.now places self.now → changes.new.items ≡ changes_from alive.now from false 0 places) }
    {
        let mut is_seeing = false;
        let mut i = self.next_change(alive, from, others, is_seeing, 0);
        'places: while i < self.places.len() {
            let is_change = changes_at(alive, from, is_seeing, self.places[i]);
            add_if(changes, i, is_change)?;
            is_seeing = turned(is_seeing, is_change);
            i = self.next_change(alive, from, others, is_seeing, i + 1);
        }
        Ok(())
    }

    /// The indices at which it changes whether places are seen from a place: two places see the same where sight changes at the
    /// same indices (`law_of_sights`).
    ///
    /// # Errors
    /// Want of memory.
    pub fn changes(
        &self,
        alloc: Global,
        alive: &Alive,
        from: Place,
    ) -> Result<Vec<usize>, AllocError>
        ensures { IfOk result (λ v. (places : List Place) → AreSightsOf alive.now places self.now → v.items ≡ changes_from alive.now from false 0 places) }
    {
        let others = others_of(alloc, alive, from)?;
        let mut changes = Vec::new(alloc);
        self.add_changes(alive, &mut changes, from, others.as_ref())?;
        Ok(changes)
    }
}
