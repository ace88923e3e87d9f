//! The numbers of binders.
ghost use Rattle.std.specs.Prelude.{◌≡◌, ◌<◌, ◌==◌, ℕ, false, map, replicate, IfOk};
ghost use Rattle.wesl_scope_occurrences.specs.Views.{occurrence_view};
ghost use Rattle.wesl_scope_strip.specs.Marks.{mark_at};
ghost use Rattle.wesl_scope_numbers.specs.Test.{has_number};
ghost use Rattle.wesl_scope_clashes.specs.Finding.{AreMarked, has_binder};

use std::alloc::{AllocError, Global};
use wesl_scope_occurrences::Occurrence;

/// Marks that are not set.
fn unmarked(alloc: Global, count: usize) -> Result<Vec<bool>, AllocError>
    ensures { IfOk result (λ marks. marks.items ≡ replicate count false) }
{
    vec![in alloc; false; count]
}

/// Sets a mark. A place past the end has none.
#[tactic(auto, using(wesl_scope_strip::proofs::Marking::set_marked, wesl_scope_strip::proofs::Marking::mark_past))]
fn mark(marks: &mut [bool], place: usize)
    ensures { AreMarked marks.old (λ m. place == m) marks.new }
{
    if place < marks.len() {
        marks[place] = true;
    }
}

/// Marks the number of an identifier, if it is a binder.
#[tactic(auto, using(wesl_scope_strip::proofs::Marking::or_false))]
fn mark_binder(occurrence: &Occurrence<'_>, marks: &mut [bool])
    ensures { AreMarked marks.old (λ m. has_number m (occurrence_view occurrence.now)) marks.new }
{
    if occurrence.standing.is_binder() {
        mark(marks, occurrence.ident.0);
    }
}

/// Marks the numbers that binders among identifiers have. A number past the end has no mark.
fn mark_binders(all: &[Occurrence<'_>], marks: &mut [bool])
    ensures { AreMarked marks.old (has_binder (map occurrence_view all.now)) marks.new }
{
    for occurrence in all {
        mark_binder(occurrence, marks);
    }
}

/// Of the first `count` numbers, whether a binder among identifiers has each.
pub fn bound_numbers(
    alloc: Global,
    count: usize,
    all: &[Occurrence<'_>],
) -> Result<Vec<bool>, AllocError>
    ensures { IfOk result (λ bound. (m : ℕ) → m < count → mark_at bound.items m ≡ has_binder (map occurrence_view all.now) m) }
{
    let mut bound = unmarked(alloc, count)?;
    mark_binders(all, &mut bound);
    Ok(bound)
}
