//! Which places of a unit each choice of its flags keeps.
ghost use Rattle.std.specs.Prelude.{◌≡◌, ◌≤◌, IfOk, length, map};
ghost use Rattle.wesl_tree_base.specs.Borrowed.{texts};
ghost use Rattle.wesl_tree_syntax.specs.Unit.{spelled};
ghost use Rattle.wesl_tree.specs.Translation.{unit_view};
ghost use Rattle.wesl_cond_alive.specs.Alive.{alive_of};
ghost use Rattle.wesl_cond_alive.specs.Choices as choices;
ghost use Rattle.wesl_cond_sets.specs.SetNumbers.{place_in};

use crate::sets::sets_of;
use crate::walk::{Here, Mark, Walk};
use std::alloc::{AllocError, Global};
use wesl_cond_choices::alive::Alive;
use wesl_cond_sets::SetNumbers;
use wesl_tree::TranslationUnit;

/// Where the sets of places are kept.
fn place_sets(alloc: Global, sets: &SetNumbers, places: &[Here]) -> Result<Vec<usize>, AllocError>
    ensures { IfOk result (λ numbers. numbers.items ≡ map (λ h. place_in sets.now h.set) places.now) }
{
    let mut numbers = Vec::new(alloc);
    for place in places {
        numbers.push(sets.place(place.set))?;
    }
    Ok(numbers)
}

/// Where the sets of identifiers are kept.
fn mark_sets(alloc: Global, sets: &SetNumbers, marks: &[Mark]) -> Result<Vec<usize>, AllocError>
    ensures { IfOk result (λ numbers. numbers.items ≡ map (λ m. place_in sets.now m.set) marks.now) }
{
    let mut numbers = Vec::new(alloc);
    for mark in marks {
        numbers.push(sets.place(mark.set))?;
    }
    Ok(numbers)
}

/// Which places of a unit each choice of its flags keeps: its imports, its global declarations and its identifiers.
///
/// # Errors
/// Want of memory.
pub fn alive_of(alloc: Global, unit: &TranslationUnit, flags: &[&str]) -> Result<Alive, AllocError>
    requires few { length flags.now ≤ 16 }
    requires all { texts flags.now ≡ choices.flags (spelled (unit_view unit.now)) }
    ensures { IfOk result (λ x. x ≡ alive_of (spelled (unit_view unit.now))) }
{
    let mut walk = Walk::new(alloc);
    let places = walk.unit(unit);
    if walk.is_refused {
        return Err(AllocError);
    }
    let sets = sets_of(alloc, unit.names(), flags, &walk.branches)?;
    let imports = place_sets(alloc, &sets, &places.imports)?;
    let declarations = place_sets(alloc, &sets, &places.declarations)?;
    let names = mark_sets(alloc, &sets, &walk.marks)?;
    let kept = sets.into_kept(alloc)?;
    Ok(Alive::new(flags.len(), kept, imports, declarations, names))
}
