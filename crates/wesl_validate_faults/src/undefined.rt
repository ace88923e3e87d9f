//! References that are not defined.
ghost use Rattle.std.specs.Prelude.{◌≡◌, ◌<◌, ℕ, length, IfOk};
ghost use Rattle.std.specs.List.{All};
ghost use Rattle.std.specs.Option.{option_map};
ghost use Rattle.wesl_tree_syntax.specs.Unit.{UnitView};
ghost use Rattle.wesl_scope_graph.specs.Graphs.{graph_view, edges_at};
ghost use Rattle.wesl_scope_occurrences.specs.Views.{occurrence_view};
ghost use Rattle.wesl_validate_builtins.specs.Builtins.{builtins_view};
ghost use Rattle.wesl_validate_rules.specs.Known.{IsNamedBy};
ghost use Rattle.wesl_validate_calls.specs.Views.{found_view};
ghost use Rattle.wesl_validate_faults.specs.Gathered.{AddsHolder, AreAdded, name_by, named_in, undefined_seen};
ghost use Rattle.wesl_validate_faults.specs.Listed.{undefineds};

use crate::finding::Finding;
use std::alloc::{AllocError, Global};
use wesl_scope_graph::add_edge;
use wesl_scope_occurrences::{Identifiers, Occurrence};
use wesl_tree_names::Names;
use wesl_validate_builtins::Builtins;
use wesl_validate_rules::{is_unknown, known_numbers, name_of};

/// Adds the number that a declaration declares, if this is its name.
#[tactic(auto, using(crate::proofs::Listing::no_name, crate::proofs::Listing::no_place))]
fn add_holder(
    alloc: Global,
    holders: &mut Vec<Vec<usize>>,
    occurrence: &Occurrence<'_>,
) -> Result<(), AllocError>
    ensures { IfOk result (λ _. AddsHolder (occurrence_view occurrence.now) holders.old holders.new) }
{
    if !occurrence.standing.is_module_name() {
        return Ok(());
    }
    match occurrence.declaration {
        None => Ok(()),
        Some(declaration) => add_edge(alloc, holders, declaration, occurrence.ident.0),
    }
}

/// Of each declaration the number that it declares, if it declares one.
pub(crate) fn holders_of(
    alloc: Global,
    found: &Identifiers<'_>,
) -> Result<Vec<Vec<usize>>, AllocError>
    ensures { IfOk result (λ holders. (j : ℕ) → edges_at (graph_view holders.items) j ≡ named_in (found_view found.now) j) }
{
    let mut holders = Vec::new(alloc);
    for occurrence in &found.all {
        add_holder(alloc, &mut holders, occurrence)?;
    }
    Ok(holders)
}

/// The name that a declaration declares, if there is one and it declares a name.
pub(crate) fn name_round<'a>(
    names: &'a Names,
    holders: &Vec<Vec<usize>>,
    declaration: Option<usize>,
) -> Option<&'a str>
    ensures { option_map (λ n. n.now) result ≡ name_by names.now (graph_view holders.now.items) declaration }
{
    let Some(declaration) = declaration else {
        return None;
    };
    match holders.get(declaration) {
        None => None,
        Some(numbers) => match numbers.first() {
            None => None,
            Some(number) => Some(name_of(names, *number)),
        },
    }
}

/// Adds a reference, if it is not defined.
fn add_undefined<'a>(
    findings: &mut Vec<Finding<'a>>,
    names: &'a Names,
    known: &Vec<bool>,
    holders: &Vec<Vec<usize>>,
    occurrence: &Occurrence<'_>,
) -> Result<(), AllocError>
    ensures { IfOk result (λ _. AreAdded findings.old.items findings.new.items (undefined_seen names.now known.now holders.now occurrence.now)) }
{
    if is_unknown(occurrence, known) {
        let holder = name_round(names, holders, occurrence.declaration);
        let name = name_of(names, occurrence.ident.0);
        findings.push(Finding::Undefined(holder, name))?;
    }
    Ok(())
}

/// Adds the references that are not defined, in document order. Refused for want of memory alone.
///
/// `found` are the identifiers of a module, and `names` its table of names.
pub(crate) fn add_undefineds<'a>(
    alloc: Global,
    findings: &mut Vec<Finding<'a>>,
    names: &'a Names,
    found: &Identifiers<'_>,
    builtins: &Builtins,
) -> Result<(), AllocError>
    requires { All (λ o. o.ident.0 < length names.now) found.now.all.items }
    ensures { IfOk result (λ _. (u : UnitView) → IsNamedBy u names.now found.now → AreAdded findings.old.items findings.new.items (undefineds u (builtins_view builtins.now))) }
{
    let known = known_numbers(alloc, names, found, builtins)?;
    let holders = holders_of(alloc, found)?;
    for occurrence in &found.all {
        add_undefined(findings, names, &known, &holders, occurrence)?;
    }
    Ok(())
}
