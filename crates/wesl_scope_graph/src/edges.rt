//! Graphs that grow by an edge.
ghost use Rattle.std.specs.Prelude.{◌≡◌, ◌<◌, ◌≤◌, ◌++◌, ◌∷◌, ◌==◌, ℕ, [], length, if◌then◌else◌, IfOk};
ghost use Rattle.wesl_scope_graph.specs.Graphs.{graph_view, edges_at, IsClosed};

use std::alloc::{AllocError, Global};

/// Adds nodes without edges until there is one of this number.
#[tactic(auto, using(crate::proofs::Growing::one_more))]
fn grow(alloc: Global, graph: &mut Vec<Vec<usize>>, node: usize) -> Result<(), AllocError>
    ensures there { IfOk result (λ _. node < length graph.new.items) }
    ensures more { IfOk result (λ _. length graph.old.items ≤ length graph.new.items) }
    ensures same { IfOk result (λ _. (a : ℕ) → edges_at (graph_view graph.new.items) a ≡ edges_at (graph_view graph.old.items) a) }
{
    while graph.len() <= node {
        graph.push(Vec::new(alloc))?;
    }
    Ok(())
}

/// Adds an edge as the last one of its node. Where there is no node `from` or `to` yet, the graph gets it.
///
/// Refused for want of memory alone; then the edge may be missing.
pub fn add_edge(
    alloc: Global,
    graph: &mut Vec<Vec<usize>>,
    from: usize,
    to: usize,
) -> Result<(), AllocError>
    ensures added { IfOk result (λ _. (a : ℕ) → edges_at (graph_view graph.new.items) a ≡ edges_at (graph_view graph.old.items) a ++ (if from == a then to ∷ [] else [])) }
    ensures closed { IfOk result (λ _. IsClosed (graph_view graph.old.items) → IsClosed (graph_view graph.new.items)) }
{
    grow(alloc, graph, from)?;
    grow(alloc, graph, to)?;
    graph[from].push(to)?;
    Ok(())
}
