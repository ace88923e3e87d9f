//! The steps of a module's numbers: from the number of a declaration to those to which the declaration refers.
ghost use Rattle.std.specs.Prelude.{◌≡◌, ◌++◌, ◌==◌, ℕ, [], map, if◌then◌else◌, IfOk};
ghost use Rattle.wesl_scope_occurrences.specs.Views.{occurrence_view};
ghost use Rattle.wesl_validate_rules.specs.Graphs.{graph_view, edges_at, IsClosed};
ghost use Rattle.wesl_validate_rules.specs.Steps.{AddsSteps, referred_here, referred, used_by, steps};

use std::alloc::{AllocError, Global};
use wesl_scope_graph::add_edge;
use wesl_scope_occurrences::{Identifiers, Occurrence};

/// Adds what an identifier refers to, if it is a reference in a declaration.
#[tactic(auto, using(crate::proofs::Stepping::no_use, crate::proofs::Stepping::no_place))]
fn add_use(
    alloc: Global,
    uses: &mut Vec<Vec<usize>>,
    occurrence: &Occurrence<'_>,
) -> Result<(), AllocError>
    ensures { IfOk result (λ _. (j : ℕ) → edges_at (graph_view uses.new.items) j ≡ edges_at (graph_view uses.old.items) j ++ referred_here j (occurrence_view occurrence.now)) }
{
    if !occurrence.standing.is_reference() {
        return Ok(());
    }
    match occurrence.declaration {
        None => Ok(()),
        Some(declaration) => add_edge(alloc, uses, declaration, occurrence.ident.0),
    }
}

/// Of each declaration the numbers to which it refers.
#[tactic(auto, using(crate::proofs::Stepping::joined_next))]
fn uses_of(alloc: Global, found: &Identifiers<'_>) -> Result<Vec<Vec<usize>>, AllocError>
    ensures { IfOk result (λ uses. (j : ℕ) → edges_at (graph_view uses.items) j ≡ referred (map occurrence_view found.now.all.items) j) }
{
    let mut uses = Vec::new(alloc);
    for occurrence in &found.all {
        add_use(alloc, &mut uses, occurrence)?;
    }
    Ok(uses)
}

/// Adds edges from one node to each of these.
fn add_edges(
    alloc: Global,
    graph: &mut Vec<Vec<usize>>,
    from: usize,
    targets: &Vec<usize>,
) -> Result<(), AllocError>
    ensures added { IfOk result (λ _. (a : ℕ) → edges_at (graph_view graph.new.items) a ≡ edges_at (graph_view graph.old.items) a ++ (if from == a then targets.now.items else [])) }
    ensures closed { IfOk result (λ _. IsClosed (graph_view graph.old.items) → IsClosed (graph_view graph.new.items)) }
{
    for target in targets {
        add_edge(alloc, graph, from, *target)?;
    }
    Ok(())
}

/// Adds the steps of a number, if it is the name of a declaration.
fn add_steps(
    alloc: Global,
    graph: &mut Vec<Vec<usize>>,
    uses: &Vec<Vec<usize>>,
    occurrence: &Occurrence<'_>,
) -> Result<(), AllocError>
    ensures added { IfOk result (λ _. AddsSteps (used_by (graph_view uses.now.items)) (occurrence_view occurrence.now) (graph_view graph.old.items) (graph_view graph.new.items)) }
    ensures closed { IfOk result (λ _. IsClosed (graph_view graph.old.items) → IsClosed (graph_view graph.new.items)) }
{
    if !occurrence.standing.is_module_name() {
        return Ok(());
    }
    match occurrence.declaration {
        None => Ok(()),
        Some(declaration) => match uses.get(declaration) {
            None => Ok(()),
            Some(targets) => add_edges(alloc, graph, occurrence.ident.0, targets),
        },
    }
}

/// The graph of the steps: of each number those to which declarations of that number refer. `found` are the identifiers
/// of a module. Refused for want of memory alone.
#[tactic(auto, using(crate::proofs::Stepping::joined_next))]
pub fn steps_of(alloc: Global, found: &Identifiers<'_>) -> Result<Vec<Vec<usize>>, AllocError>
    ensures steps { IfOk result (λ graph. (a : ℕ) → edges_at (graph_view graph.items) a ≡ steps (map occurrence_view found.now.all.items) a) }
    ensures closed { IfOk result (λ graph. IsClosed (graph_view graph.items)) }
{
    let uses = uses_of(alloc, found)?;
    let mut graph = Vec::new(alloc);
    for occurrence in &found.all {
        add_steps(alloc, &mut graph, &uses, occurrence)?;
    }
    Ok(graph)
}
