//! Which declarations are kept.
ghost use Rattle.std.specs.Prelude.{◌≡◌, get_or, ◌+◌, ◌<◌, ◌↔◌, ℕ, Bool, true, false, not, ◌&&◌, ◌||◌, ◌==◌, length, map, bytes_eq, IfOk};
ghost use Rattle.std.specs.List.{All, list_any};
ghost use Rattle.wesl_tree_syntax.specs.Tree.{trees};
ghost use Rattle.wesl_tree_syntax.specs.Unit.{name_in};
ghost use Rattle.wesl_scope_occurrences.specs.Views.{occurrence_view};
ghost use Rattle.wesl_scope_strip.specs.Declarations.{IsKept};
ghost use Rattle.wesl_scope_strip.specs.Marks.{mark_at, has_name, names_here};
ghost use Rattle.wesl_scope_strip.specs.Sets.{HasThese, is_text_of};
ghost use Rattle.wesl_tree.specs.Translation.{unit_view};

use crate::steps::steps_of;
use std::alloc::{AllocError, Global};
use std::collections::HashSet;
use wesl_scope_graph::reach;
use wesl_scope_occurrences::{Occurrence, occurrences};
use wesl_tree::{Ident, Names, TranslationUnit};

/// The name at a place.
fn name_at<'n>(keep: &[&'n str], place: usize) -> &'n str
    requires { place < length keep.now }
    ensures { result ≡ get_or keep.now place result }
{
    keep[place]
}

/// The names to be kept, as a set: of which many are asked, each costs one look-up.
fn kept_names<'n>(alloc: Global, keep: &[&'n str]) -> Result<HashSet<&'n str>, AllocError>
    ensures { IfOk result (HasThese keep.now) }
{
    let mut kept: HashSet<&str> = HashSet::new(alloc);
    for i in 0..keep.len() {
        kept.insert(name_at(keep, i))?;
    }
    Ok(kept)
}

/// Of each number of the table, whether its name is to be kept.
fn named(alloc: Global, names: &Names, keep: &[&str]) -> Result<Vec<bool>, AllocError>
    ensures all { IfOk result (λ wanted. length wanted.items ≡ length names.now) }
    ensures marked { IfOk result (λ wanted. (m : ℕ) → m < length names.now → mark_at wanted.items m ≡ is_text_of keep.now (name_in names.now m)) }
{
    let kept = kept_names(alloc, keep)?;
    let mut wanted = Vec::with_capacity(alloc, names.len())?;
    for i in 0..names.len() {
        wanted.push(kept.contains(names.name(Ident(i))))?;
    }
    Ok(wanted)
}

#[tactic(auto, using(crate::proofs::Marking::unset_marked, crate::proofs::Marking::unset_past, crate::proofs::Marking::and_not_false))]
fn unmark_declaration(occurrence: &Occurrence<'_>, kept: &mut [bool])
    ensures { (j : ℕ) → j < length kept.old → mark_at kept.new j ≡ (mark_at kept.old j && not (names_here j (occurrence_view occurrence.now))) }
{
    let Some(declaration) = occurrence.declaration else {
        return;
    };
    if !occurrence.standing.is_module_name() {
        return;
    }
    if declaration >= kept.len() {
        return;
    }
    kept[declaration] = false;
}

/// Of each of so many declarations, whether it declares no name.
#[tactic(auto, using(crate::proofs::Marking::any_next, crate::proofs::Marking::unset_step, crate::proofs::Marking::and_true_right))]
fn nameless(alloc: Global, count: usize, all: &[Occurrence<'_>]) -> Result<Vec<bool>, AllocError>
    ensures all { IfOk result (λ kept. length kept.items ≡ count) }
    ensures marked { IfOk result (λ kept. (j : ℕ) → j < count → mark_at kept.items j ≡ not (has_name (map occurrence_view all.now) j)) }
{
    let mut kept = vec![in alloc; true; count]?;
    for occurrence in all {
        unmark_declaration(occurrence, &mut kept);
    }
    Ok(kept)
}

/// Of each declaration, whether it is kept: those named in `keep`, those without a name, and what these reach.
/// Refused for want of memory alone.
pub fn kept_declarations(
    alloc: Global,
    unit: &TranslationUnit,
    keep: &[&str],
) -> Result<Vec<bool>, AllocError>
    ensures all { IfOk result (λ kept. length kept.items ≡ length (trees (unit_view unit.now).declarations.children)) }
    ensures least { IfOk result (λ kept. (j : ℕ) → j < length kept.items → (mark_at kept.items j ≡ true) ↔ IsKept (unit_view unit.now) (map (λ k. k.now) keep.now) j) }
{
    let found = occurrences(alloc, unit)?;
    let count = unit.global_declarations().len();
    let mut marks = nameless(alloc, count, &found.all)?;
    let wanted = named(alloc, unit.names(), keep)?;
    marks.extend_from_slice(&wanted)?;
    let graph = steps_of(alloc, count, &found.all)?;
    reach(alloc, &graph, &mut marks)?;
    marks.truncate(count);
    Ok(marks)
}
