//! Graphs whose edges are turned round.
ghost use Rattle.std.specs.Prelude.{IfOk};
ghost use Rattle.wesl_scope_graph.specs.Graphs.{graph_view, IsClosed};
ghost use Rattle.wesl_scope_values.specs.Values.{AddsFromEach, IsTurned};

use std::alloc::{AllocError, Global};
use wesl_scope_graph::add_edge;

/// Adds an edge from each of these nodes to a node.
pub(crate) fn add_from_each(
    alloc: Global,
    graph: &mut Vec<Vec<usize>>,
    nodes: &Vec<usize>,
    to: usize,
) -> Result<(), AllocError>
    ensures added { IfOk result (λ _. AddsFromEach nodes.now.items to (graph_view graph.old.items) (graph_view graph.new.items)) }
    ensures closed { IfOk result (λ _. IsClosed (graph_view graph.old.items) → IsClosed (graph_view graph.new.items)) }
{
    for node in nodes {
        add_edge(alloc, graph, *node, to)?;
    }
    Ok(())
}

/// The graph with each edge turned round. Refused for want of memory alone.
pub fn turned(alloc: Global, graph: &Vec<Vec<usize>>) -> Result<Vec<Vec<usize>>, AllocError>
    ensures edges { IfOk result (λ turned. IsTurned (graph_view graph.now.items) (graph_view turned.items)) }
    ensures closed { IfOk result (λ turned. IsClosed (graph_view turned.items)) }
{
    let mut turned = Vec::new(alloc);
    for node in 0..graph.len() {
        add_from_each(alloc, &mut turned, &graph[node], node)?;
    }
    Ok(turned)
}
