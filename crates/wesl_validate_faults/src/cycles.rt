//! Declarations that reach themselves.
ghost use Rattle.std.specs.Prelude.{◌≡◌, ◌++◌, IfOk};
ghost use Rattle.wesl_tree_syntax.specs.Unit.{UnitView};
ghost use Rattle.wesl_scope_graph.specs.Graphs.{graph_view, IsClosed};
ghost use Rattle.wesl_scope_occurrences.specs.Views.{occurrence_view};
ghost use Rattle.wesl_validate_rules.specs.Known.{IsNamedBy};
ghost use Rattle.wesl_validate_calls.specs.Views.{found_view};
ghost use Rattle.wesl_validate_faults.specs.Gathered.{AreAdded, AddsCycles, findings_view, declared_here, declared_among, cycle_here, AddsRings};

use crate::closers::closers_of;
use crate::finding::Finding;
use std::alloc::{AllocError, Global};
use wesl_scope_occurrences::{Identifiers, Occurrence};
use wesl_scope_values::value_of;
use wesl_tree_names::Names;
use wesl_validate_rules::{name_of, ring, steps_of};

/// Adds the number of an import or a declaration, if this is its name.
fn add_declared(declared: &mut Vec<usize>, occurrence: &Occurrence<'_>) -> Result<(), AllocError>
    ensures { IfOk result (λ _. declared.new.items ≡ declared.old.items ++ declared_here (occurrence_view occurrence.now)) }
{
    if occurrence.standing.is_module_name() {
        declared.push(occurrence.ident.0)?;
    }
    Ok(())
}

/// The numbers of the names of imports and declarations, in document order.
fn declared_numbers(alloc: Global, found: &Identifiers<'_>) -> Result<Vec<usize>, AllocError>
    ensures { IfOk result (λ declared. declared.items ≡ declared_among (found_view found.now)) }
{
    let mut declared = Vec::new(alloc);
    for occurrence in &found.all {
        add_declared(&mut declared, occurrence)?;
    }
    Ok(declared)
}

/// Adds a declaration, if it reaches itself.
fn add_cycle<'a>(
    findings: &mut Vec<Finding<'a>>,
    names: &'a Names,
    number: usize,
    last: Option<usize>,
) -> Result<(), AllocError>
    ensures { IfOk result (λ _. AreAdded findings.old.items findings.new.items (cycle_here names.now number last)) }
{
    match last {
        None => Ok(()),
        Some(last) => {
            let name = name_of(names, number);
            findings.push(Finding::Cycle(name, name_of(names, last)))?;
            Ok(())
        }
    }
}

/// Adds each of the nodes that reaches itself.
fn add_rings<'a>(
    alloc: Global,
    findings: &mut Vec<Finding<'a>>,
    names: &'a Names,
    graph: &Vec<Vec<usize>>,
    declared: &Vec<usize>,
) -> Result<(), AllocError>
    requires closed { IsClosed (graph_view graph.now.items) }
    ensures { IfOk result (λ _. AddsRings names.now (graph_view graph.now.items) declared.now.items (findings_view findings.old.items) (findings_view findings.new.items)) }
{
    let closers = closers_of(alloc, graph, declared)?;
    for number in declared {
        let last = value_of(&closers, *number);
        add_cycle(findings, names, *number, last)?;
    }
    Ok(())
}

/// Adds the declarations that reach themselves, in document order. The work grows as the steps between declarations do.
/// Refused for want of memory alone.
///
/// `found` are the identifiers of a module, and `names` its table of names.
pub(crate) fn add_cycles<'a>(
    alloc: Global,
    findings: &mut Vec<Finding<'a>>,
    names: &'a Names,
    found: &Identifiers<'_>,
) -> Result<(), AllocError>
    ensures { IfOk result (λ _. (u : UnitView) → IsNamedBy u names.now found.now → AddsCycles u findings.old.items findings.new.items) }
{
    let graph = steps_of(alloc, found)?;
    let declared = declared_numbers(alloc, found)?;
    match ring(alloc, &graph)? {
        None => Ok(()),
        Some(_) => add_rings(alloc, findings, names, &graph, &declared),
    }
}
