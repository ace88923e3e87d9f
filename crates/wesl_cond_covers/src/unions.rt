//! Unions of the sets of choices that keep places which follow on each other.
ghost use Rattle.std.specs.Prelude.{◌≡◌, ◌↔◌, ℕ, ◌<◌, ◌≤◌, nat_eq, ◌&&◌, ◌||◌, [], length, option_copied, slice_get, IfOk, IfSome, IsTrue, OnOk, Some};
ghost use Rattle.wesl_cond_choices.specs.Choices.{has};
ghost use Rattle.wesl_cond_covers.specs.Unseen.{AreIn, AreUnions, IsIn, may_have};

use std::alloc::{AllocError, Global};
use wesl_cond_choices::alive::Alive;
use wesl_cond_choices::choices::Choices;
use wesl_cond_choices::place::Place;

/// Whether no choice is in both, where they are sets of choices of as many flags.
fn are_apart(first: &Choices, second: &Choices) -> bool
    ensures { IsTrue result → (k : ℕ) → IsTrue (has first.now k) → IsTrue (has second.now k) → ⊥ }
{
    first.flags() == second.flags() && !first.meets(second)
}

/// Whether the union has no choice of the set, where they are of as many flags; where there is no set, no choice at all.
pub(crate) fn is_apart(set: Option<&Choices>, union: &Choices) -> bool
    ensures { IsTrue result → (k : ℕ) → IsTrue (may_have k (option_copied set.entry)) → IsTrue (has union.now k) → ⊥ }
{
    match set {
        Some(set) => are_apart(set, union),
        None => union.is_empty(),
    }
}

/// Adds the choices of a set, where it is one of choices of as many flags; and answers whether it is.
fn add(all: &mut Choices, set: &Choices) -> bool
    ensures of_flags { result ≡ nat_eq all.old.flags set.now.flags }
    ensures added { (k : ℕ) → has all.new k ≡ (has all.old k || (result && has set.now k)) }
{
    if all.flags() != set.flags() {
        return false;
    }
    all.or(set);
    true
}

/// Adds the choices that keep a place, where they are known; and answers whether they are.
fn add_kept(alive: &Alive, all: &mut Choices, place: Place) -> bool
    ensures holds { (k : ℕ) → IsTrue (has all.old k) → IsTrue (has all.new k) }
    ensures added { IsTrue result → IsIn alive.now all.new place }
{
    match alive.choices_of(place) {
        Some(set) => add(all, set),
        None => false,
    }
}

/// Adds the choices that keep the places from one index to another, where they are known; and answers whether they are.
fn add_range(alive: &Alive, all: &mut Choices, places: &[Place], start: usize, end: usize) -> bool
    requires { end ≤ length places.now }
    ensures { IsTrue result → AreIn alive.now places.now all.new start end }
{
    for i in start..end {
        if !add_kept(alive, all, places[i]) {
            return false;
        }
    }
    true
}

/// How many flags the choices that keep a place are of, where these are known.
fn flags_of(alive: &Alive, place: Place) -> usize
    ensures { result ≤ 16 }
{
    match alive.choices_of(place) {
        Some(set) => set.flags(),
        None => 0,
    }
}

/// The union of the sets of the places from one index to another, where the choices that keep them are known.
fn union_of(
    alloc: Global,
    alive: &Alive,
    places: &[Place],
    start: usize,
    end: usize,
) -> Result<Option<Choices>, AllocError>
    requires some { start < end }
    requires within { end ≤ length places.now }
    ensures { IfOk result (λ u. IfSome u (λ c. AreIn alive.now places.now c start end)) }
{
    let mut all = Choices::none(alloc, flags_of(alive, places[start]))?;
    if add_range(alive, &mut all, places, start, end) {
        Ok(Some(all))
    } else {
        Ok(None)
    }
}

/// Adds the union of each `span` places, as long as there are so many. It holds nothing, so where memory is wanting nothing is
/// let go.
pub(crate) fn add_unions(
    alloc: Global,
    alive: &Alive,
    unions: &mut Vec<Option<Choices>>,
    places: &[Place],
    span: usize,
) -> Result<(), AllocError>
    requires some { 0 < span }
    requires empty { unions.old.items ≡ [] }
    ensures { OnOk result (AreUnions alive.now places.now span unions.new.items) }
{
    let mut start = 0;
    while places.len() - start >= span {
        let union = union_of(alloc, alive, places, start, start + span)?;
        unions.push(union)?;
        start += span;
    }
    Ok(())
}
