//! Numbers that binders have.
ghost use Rattle.std.specs.Prelude.{◌≡◌, ◌<◌, ◌==◌, ℕ, length, IfOk};
ghost use Rattle.std.specs.List.{list_any};
ghost use Rattle.wesl_scope_occurrences.specs.Views.{occurrence_view};
ghost use Rattle.wesl_scope_strip.specs.Marks.{mark_at};
ghost use Rattle.wesl_validate_rules.specs.Known.{binds_here};
ghost use Rattle.wesl_validate_calls.specs.Views.{found_view};
ghost use Rattle.wesl_validate_calls.specs.Tables.{AddsMarks};

use std::alloc::{AllocError, Global};
use wesl_scope_occurrences::{Identifiers, Occurrence};

/// Adds marks that are not set until there is one of this place.
#[tactic(auto, using(crate::proofs::Marked::one_more))]
fn grow(marks: &mut Vec<bool>, place: usize) -> Result<(), AllocError>
    ensures there { IfOk result (λ _. place < length marks.new.items) }
    ensures same { IfOk result (λ _. (m : ℕ) → mark_at marks.new.items m ≡ mark_at marks.old.items m) }
{
    while marks.len() <= place {
        marks.push(false)?;
    }
    Ok(())
}

/// Sets a mark.
#[tactic(auto, using(wesl_scope_strip::proofs::Marking::set_marked))]
fn mark(marks: &mut Vec<bool>, place: usize) -> Result<(), AllocError>
    ensures { IfOk result (λ _. AddsMarks (λ m. place == m) marks.old.items marks.new.items) }
{
    grow(marks, place)?;
    marks[place] = true;
    Ok(())
}

#[tactic(auto, using(wesl_scope_strip::proofs::Marking::or_false))]
fn mark_binder(bound: &mut Vec<bool>, occurrence: &Occurrence<'_>) -> Result<(), AllocError>
    ensures { IfOk result (λ _. AddsMarks (λ m. binds_here m (occurrence_view occurrence.now)) bound.old.items bound.new.items) }
{
    if occurrence.standing.is_binder() {
        mark(bound, occurrence.ident.0)?;
    }
    Ok(())
}

/// Of each number whether a binder has it. Refused for want of memory alone.
#[tactic(auto, using(wesl_scope_strip::proofs::Marking::any_next, wesl_scope_strip::proofs::Marking::or_assoc, wesl_scope_strip::proofs::Marking::or_false))]
pub(crate) fn bound_numbers(alloc: Global, found: &Identifiers<'_>) -> Result<Vec<bool>, AllocError>
    ensures { IfOk result (λ bound. (m : ℕ) → mark_at bound.items m ≡ list_any (binds_here m) (found_view found.now)) }
{
    let mut bound = Vec::new(alloc);
    for occurrence in &found.all {
        mark_binder(&mut bound, occurrence)?;
    }
    Ok(bound)
}
