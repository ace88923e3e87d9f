//! The graph of a module's declarations and numbers.
ghost use Rattle.std.specs.Prelude.{◌≡◌, ◌+◌, ◌<◌, ◌^◌, ◌⊎◌, ◌↔◌, ℕ, map, IfOk};
ghost use Rattle.std.specs.List.{All};
ghost use Rattle.wesl_scope_graph.specs.Graphs.{graph_view, Leads};
ghost use Rattle.wesl_scope_occurrences.specs.Views.{occurrence_view};
ghost use Rattle.wesl_scope_strip.specs.Steps.{IsStep, IsStepOf};

use std::alloc::{AllocError, Global};
use wesl_scope_graph::add_edge;
use wesl_scope_occurrences::Occurrence;

/// Adds the edge of an identifier in one of `count` declarations, if it refers or is the name of that declaration.
fn add_step(
    alloc: Global,
    graph: &mut Vec<Vec<usize>>,
    count: usize,
    occurrence: &Occurrence<'_>,
) -> Result<(), AllocError>
    requires small { count + occurrence.now.ident.0 < 2 ^ 64 }
    ensures added { IfOk result (λ _. (a b : ℕ) → Leads (graph_view graph.new.items) a b ↔ (Leads (graph_view graph.old.items) a b ⊎ IsStep count a b (occurrence_view occurrence.now))) }
{
    let Some(declaration) = occurrence.declaration else {
        return Ok(());
    };
    if declaration >= count {
        return Ok(());
    }
    let number = count + occurrence.ident.0;
    if occurrence.standing.is_reference() {
        return add_edge(alloc, graph, declaration, number);
    }
    if occurrence.standing.is_module_name() {
        return add_edge(alloc, graph, number, declaration);
    }
    Ok(())
}

/// The graph that leads from each of `count` declarations to the numbers to which it refers, and from each number to
/// the declarations of it. The number `m` is the node `count + m`.
pub(crate) fn steps_of(
    alloc: Global,
    count: usize,
    all: &[Occurrence<'_>],
) -> Result<Vec<Vec<usize>>, AllocError>
    requires small { All (λ o. count + o.ident.0 < 2 ^ 64) all.now }
    ensures steps { IfOk result (λ graph. (a b : ℕ) → Leads (graph_view graph.items) a b ↔ IsStepOf count a b (map occurrence_view all.now)) }
{
    let mut graph = Vec::new(alloc);
    for occurrence in all {
        add_step(alloc, &mut graph, count, occurrence)?;
    }
    Ok(graph)
}
