//! Numbers whose name means something.
ghost use Rattle.std.specs.Prelude.{◌≡◌, ◌<◌, ◌||◌, ◌==◌, ℕ, length, map, bytes_eq, IfOk};
ghost use Rattle.wesl_tree_syntax.specs.Unit.{name_in};
ghost use Rattle.wesl_scope_occurrences.specs.Views.{occurrence_view};
ghost use Rattle.wesl_scope_strip.specs.Marks.{mark_at};
ghost use Rattle.wesl_validate_builtins.specs.Builtins.{AreKept, BuiltinNames, builtins_view};
ghost use Rattle.wesl_validate_rules.specs.Known.{AreKnown, binds_here, is_meant};

use std::alloc::{AllocError, Global};
use std::collections::HashSet;
use wesl_scope_occurrences::{Identifiers, Occurrence};
use wesl_tree_names::{Ident, Names};
use wesl_validate_builtins::Builtins;

/// Sets a mark. A place past the end has none.
#[tactic(auto, using(wesl_scope_strip::proofs::Marking::set_marked, wesl_scope_strip::proofs::Marking::mark_past))]
fn mark(marks: &mut [bool], place: usize)
    ensures { (m : ℕ) → m < length marks.old → mark_at marks.new m ≡ mark_at marks.old m || place == m }
{
    if place < marks.len() {
        marks[place] = true;
    }
}

#[tactic(auto, using(wesl_scope_strip::proofs::Marking::or_false))]
fn mark_binder(occurrence: &Occurrence<'_>, known: &mut [bool])
    ensures { (m : ℕ) → m < length known.old → mark_at known.new m ≡ mark_at known.old m || binds_here m (occurrence_view occurrence.now) }
{
    if occurrence.standing.is_binder() {
        mark(known, occurrence.ident.0);
    }
}

/// Whether a name is built in, or `_`, which anything may stand for; `defined` has the built-in names.
fn is_meant(defined: &HashSet<&str>, name: &str) -> bool
    ensures { (b : BuiltinNames) → AreKept b.names defined.now → result ≡ is_meant b name.now }
{
    defined.contains(name) || name == "_"
}

/// Of each number of the table, whether its name is built in or `_`.
fn meant(alloc: Global, names: &Names, builtins: &Builtins) -> Result<Vec<bool>, AllocError>
    ensures all { IfOk result (λ known. length known.items ≡ length names.now) }
    ensures marked { IfOk result (λ known. (m : ℕ) → m < length names.now → mark_at known.items m ≡ is_meant (builtins_view builtins.now) (name_in names.now m)) }
{
    let defined = builtins.defined_names(alloc)?;
    let mut known = Vec::with_capacity(alloc, names.len())?;
    for i in 0..names.len() {
        known.push(is_meant(&defined, names.name(Ident(i))))?;
    }
    Ok(known)
}

/// Of each number of the table, whether its name means something: a binder has the number, or the name is built in, or
/// it is `_`.
#[tactic(auto, using(wesl_scope_strip::proofs::Marking::any_next, wesl_scope_strip::proofs::Marking::or_assoc, wesl_scope_strip::proofs::Marking::or_false))]
pub fn known_numbers(
    alloc: Global,
    names: &Names,
    found: &Identifiers<'_>,
    builtins: &Builtins,
) -> Result<Vec<bool>, AllocError>
    ensures { IfOk result (λ known. AreKnown (builtins_view builtins.now) names.now (map occurrence_view found.now.all.items) known.items) }
{
    let mut known = meant(alloc, names, builtins)?;
    for occurrence in &found.all {
        mark_binder(occurrence, &mut known);
    }
    Ok(known)
}
