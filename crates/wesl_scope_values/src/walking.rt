//! The nodes that are reached from some of a graph.
ghost use Rattle.std.specs.Prelude.{◌≡◌, ◌≤◌, length, IfOk};
ghost use Rattle.std.proofs.Common.{set};
ghost use Rattle.wesl_scope_graph.specs.Graphs.{graph_view, edges_at, IsClosed};
ghost use Rattle.wesl_scope_graph.specs.Marks.{mark_at};
ghost use Rattle.wesl_scope_values.specs.Walks.{all_entered, cleared, entered, visits, Walked};

use std::alloc::{AllocError, Global};

/// Whether a node has its mark.
pub fn is_marked(marks: &[bool], node: usize) -> bool
    ensures { result ≡ mark_at marks.now node }
{
    node < marks.len() && marks[node]
}

/// Sets a node's mark or takes it away. A node past the end has none.
#[tactic(auto, using(crate::proofs::Walked::set_outside))]
pub fn set_mark(marks: &mut [bool], node: usize, value: bool)
    ensures { marks.new ≡ set marks.old node value }
{
    if node < marks.len() {
        marks[node] = value;
    }
}

/// Puts a node at the end of those that were met, unless it has its mark.
fn enter(marks: &mut [bool], nodes: &mut Vec<usize>, node: usize) -> Result<(), AllocError>
    ensures { IfOk result (λ _. visits marks.new nodes.new.items ≡ entered node (visits marks.old nodes.old.items)) }
{
    if is_marked(marks, node) {
        return Ok(());
    }
    set_mark(marks, node, true);
    nodes.push(node)?;
    Ok(())
}

fn enter_all(
    marks: &mut [bool],
    nodes: &mut Vec<usize>,
    targets: &Vec<usize>,
) -> Result<(), AllocError>
    ensures { IfOk result (λ _. visits marks.new nodes.new.items ≡ all_entered targets.now.items (visits marks.old nodes.old.items)) }
{
    for target in targets {
        enter(marks, nodes, *target)?;
    }
    Ok(())
}

/// Meets those to which a node leads.
fn spread(
    graph: &Vec<Vec<usize>>,
    marks: &mut [bool],
    nodes: &mut Vec<usize>,
    node: usize,
) -> Result<(), AllocError>
    ensures { IfOk result (λ _. visits marks.new nodes.new.items ≡ all_entered (edges_at (graph_view graph.now.items) node) (visits marks.old nodes.old.items)) }
{
    match graph.get(node) {
        None => Ok(()),
        Some(targets) => enter_all(marks, nodes, targets),
    }
}

/// Takes the marks of these nodes away.
pub fn clear(marks: &mut [bool], nodes: &[usize])
    ensures { marks.new ≡ cleared nodes.now marks.old }
{
    for node in nodes {
        set_mark(marks, *node, false);
    }
}

/// These nodes and those that they reach, but for what had its mark before or is reached by way of such nodes alone. They get
/// their mark.
///
/// It goes over the nodes that it answers and their edges once. Refused for want of memory alone.
pub fn walk(
    alloc: Global,
    graph: &Vec<Vec<usize>>,
    marks: &mut [bool],
    first: &Vec<usize>,
) -> Result<Vec<usize>, AllocError>
    requires graph { IsClosed (graph_view graph.now.items) }
    requires sized { length (graph_view graph.now.items) ≤ length marks.old }
    ensures { IfOk result (λ nodes. Walked (graph_view graph.now.items) first.now.items marks.old marks.new nodes.items) }
{
    let mut nodes = Vec::new(alloc);
    enter_all(marks, &mut nodes, first)?;
    let mut next = 0;
    while next < nodes.len() {
        let from = nodes[next];
        spread(graph, marks, &mut nodes, from)?;
        next += 1;
    }
    Ok(nodes)
}
