//! The order in which a search along the edges is done with nodes.
ghost use Rattle.std.specs.Prelude.{◌+◌, ◌*◌, ◌≤◌, length, sum, IfOk, MatchOption};

use std::alloc::{AllocError, Global};
use wesl_scope_values::{is_marked, set_mark};

/// The next of a node's edges that are left, if one is: where it leads.
fn next_target(graph: &Vec<Vec<usize>>, left: &mut [usize], node: usize) -> Option<usize>
    ensures { MatchOption result (sum left.new ≤ sum left.old) (λ _. sum left.new + 1 ≤ sum left.old) }
{
    if node >= left.len() {
        return None;
    }
    let edges = left[node];
    if edges == 0 {
        return None;
    }
    left[node] = edges - 1;
    match graph.get(node) {
        None => None,
        Some(targets) => targets.get(edges - 1).copied(),
    }
}

/// Puts a node on the way, unless it was met.
fn meet(met: &mut [bool], way: &mut Vec<usize>, node: usize) -> Result<(), AllocError>
    ensures { IfOk result (λ _. length way.new.items ≤ length way.old.items + 1) }
{
    if is_marked(met, node) {
        return Ok(());
    }
    set_mark(met, node, true);
    way.push(node)?;
    Ok(())
}

/// Goes along the next edge of a node, or is done with it.
fn step(
    graph: &Vec<Vec<usize>>,
    left: &mut [usize],
    met: &mut [bool],
    way: &mut Vec<usize>,
    order: &mut Vec<usize>,
    node: usize,
) -> Result<(), AllocError>
    ensures { IfOk result (λ _. 2 * sum left.new + length way.new.items ≤ 2 * sum left.old + length way.old.items) }
{
    match next_target(graph, left, node) {
        None => {
            order.push(node)?;
            Ok(())
        }
        Some(target) => {
            way.push(node)?;
            meet(met, way, target)
        }
    }
}

/// Goes on until the way is empty.
fn finish(
    graph: &Vec<Vec<usize>>,
    left: &mut [usize],
    met: &mut [bool],
    way: &mut Vec<usize>,
    order: &mut Vec<usize>,
) -> Result<(), AllocError> {
    while let Some(node) = way.pop() {
        step(graph, left, met, way, order, node)?;
    }
    Ok(())
}

/// Of each node, how many edges it has.
fn edge_counts(alloc: Global, graph: &Vec<Vec<usize>>) -> Result<Vec<usize>, AllocError> {
    let mut left = Vec::with_capacity(alloc, graph.len())?;
    for edges in graph {
        left.push(edges.len())?;
    }
    Ok(left)
}

/// Nodes in the order in which a search is done with them, the last first: a node comes before those that it reaches, but
/// where they reach it too. Nothing that is proved rests on it; it keeps the work of `groups_of` small.
///
/// Refused for want of memory alone.
pub(crate) fn first_finished_last(
    alloc: Global,
    graph: &Vec<Vec<usize>>,
) -> Result<Vec<usize>, AllocError> {
    let mut left = edge_counts(alloc, graph)?;
    let mut met = vec![in alloc; false; graph.len()]?;
    let mut way = Vec::new(alloc);
    let mut order = Vec::new(alloc);
    for start in 0..graph.len() {
        meet(&mut met, &mut way, start)?;
        finish(graph, &mut left, &mut met, &mut way, &mut order)?;
    }
    order.reverse();
    Ok(order)
}
