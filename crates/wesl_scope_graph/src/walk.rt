//! What marked nodes reach.
ghost use Rattle.std.specs.Prelude.{◌≡◌, ◌∷◌, ◌↔◌, ℕ, [], true, IfOk};
ghost use Rattle.std.specs.List.{Contains};
ghost use Rattle.wesl_scope_graph.specs.Graphs.{graph_view, edges_at, Reached};
ghost use Rattle.wesl_scope_graph.specs.Marks.{mark_at, Meets};

use std::alloc::{AllocError, Global};

/// The nodes that have their mark.
fn marked_nodes(alloc: Global, marks: &[bool]) -> Result<Vec<usize>, AllocError>
    ensures { IfOk result (λ nodes. (a : ℕ) → Contains nodes.items a ↔ (mark_at marks.now a ≡ true)) }
{
    let mut nodes = Vec::new(alloc);
    for node in 0..marks.len() {
        if marks[node] {
            nodes.push(node)?;
        }
    }
    Ok(nodes)
}

/// Marks a node and puts it on the way, unless it has its mark. A node past the end of the marks has none.
fn enter(marks: &mut [bool], way: &mut Vec<usize>, node: usize) -> Result<(), AllocError>
    ensures { IfOk result (λ _. Meets (node ∷ []) marks.old marks.new way.old.items way.new.items) }
{
    if node >= marks.len() {
        return Ok(());
    }
    if marks[node] {
        return Ok(());
    }
    marks[node] = true;
    way.push(node)?;
    Ok(())
}

/// Enters these nodes, one after the other.
fn enter_all(
    marks: &mut [bool],
    way: &mut Vec<usize>,
    targets: &Vec<usize>,
) -> Result<(), AllocError>
    ensures { IfOk result (λ _. Meets targets.now.items marks.old marks.new way.old.items way.new.items) }
{
    for target in targets {
        enter(marks, way, *target)?;
    }
    Ok(())
}

/// Enters the nodes to which a node leads.
fn spread(
    graph: &[Vec<usize>],
    marks: &mut [bool],
    way: &mut Vec<usize>,
    node: usize,
) -> Result<(), AllocError>
    ensures { IfOk result (λ _. Meets (edges_at (graph_view graph.now) node) marks.old marks.new way.old.items way.new.items) }
{
    match graph.get(node) {
        None => Ok(()),
        Some(targets) => enter_all(marks, way, targets),
    }
}

/// Marks what the marked nodes reach. It takes each node once and looks at each edge once.
///
/// `graph` has of each node the nodes that it leads to. An edge to a node past the end of the marks is not followed.
/// Refused for want of memory alone; then some of the marks may be missing.
pub fn reach(alloc: Global, graph: &[Vec<usize>], marks: &mut [bool]) -> Result<(), AllocError>
    ensures reached { IfOk result (λ _. (a : ℕ) → (mark_at marks.new a ≡ true) ↔ Reached (graph_view graph.now) marks.old a) }
{
    let mut way = marked_nodes(alloc, marks)?;
    while let Some(node) = way.pop() {
        spread(graph, marks, &mut way, node)?;
    }
    Ok(())
}
