//! Groups of nodes that reach each other.
ghost use Rattle.std.specs.Prelude.{◌≡◌, ◌<◌, ◌∷◌, ℕ, [], length, true, false, IfOk};
ghost use Rattle.wesl_scope_graph.specs.Graphs.{graph_view, IsClosed};
ghost use Rattle.wesl_scope_graph.specs.Marks.{mark_at};
ghost use Rattle.wesl_scope_values.specs.Values.{IsTurned};
ghost use Rattle.wesl_scope_groups.specs.Groups.{all_set, AreGroups, IsGrouping};

use crate::order::first_finished_last;
use std::alloc::{AllocError, Global};
use wesl_scope_values::{clear, is_marked, set_all_first, set_mark, turned, walk};

/// Sets the marks of these nodes.
fn set_marks(marks: &mut [bool], nodes: &Vec<usize>)
    ensures { marks.new ≡ all_set nodes.now.items marks.old }
{
    for node in nodes {
        set_mark(marks, *node, true);
    }
}

/// A list of one node.
fn only(alloc: Global, node: usize) -> Result<Vec<usize>, AllocError>
    ensures { IfOk result (λ nodes. nodes.items ≡ node ∷ []) }
{
    let mut nodes = Vec::new(alloc);
    nodes.push(node)?;
    Ok(nodes)
}

/// Puts the group of a node together: of those from which it is reached, those that it reaches without leaving them. Their
/// number is that of the node.
///
/// `back` is the graph turned round. Nodes with a group have their mark in `done`, all nodes have theirs in `outside`.
fn add_group(
    alloc: Global,
    graph: &Vec<Vec<usize>>,
    back: &Vec<Vec<usize>>,
    done: &mut [bool],
    outside: &mut [bool],
    groups: &mut Vec<Option<usize>>,
    node: usize,
) -> Result<(), AllocError>
    requires closed { IsClosed (graph_view graph.now.items) }
    requires back { IsTurned (graph_view graph.now.items) (graph_view back.now.items) }
    requires back_closed { IsClosed (graph_view back.now.items) }
    requires inside { node < length (graph_view graph.now.items) }
    requires before { IsGrouping (graph_view graph.now.items) (graph_view back.now.items) done.old outside.old groups.old.items }
    requires new { mark_at done.old node ≡ false }
    ensures grouping { IfOk result (λ _. IsGrouping (graph_view graph.now.items) (graph_view back.now.items) done.new outside.new groups.new.items) }
    ensures more { IfOk result (λ _. (m : ℕ) → mark_at done.old m ≡ true → mark_at done.new m ≡ true) }
    ensures here { IfOk result (λ _. mark_at done.new node ≡ true) }
{
    let first = only(alloc, node)?;
    let leading = walk(alloc, back, done, &first)?;
    clear(outside, &leading);
    let members = walk(alloc, graph, outside, &first)?;
    set_marks(outside, &leading);
    clear(done, &leading);
    set_marks(done, &members);
    set_all_first(groups, &members, node)?;
    Ok(())
}

/// The same, unless it has a group or is no node.
fn add_group_once(
    alloc: Global,
    graph: &Vec<Vec<usize>>,
    back: &Vec<Vec<usize>>,
    done: &mut [bool],
    outside: &mut [bool],
    groups: &mut Vec<Option<usize>>,
    node: usize,
) -> Result<(), AllocError>
    requires closed { IsClosed (graph_view graph.now.items) }
    requires back { IsTurned (graph_view graph.now.items) (graph_view back.now.items) }
    requires back_closed { IsClosed (graph_view back.now.items) }
    requires before { IsGrouping (graph_view graph.now.items) (graph_view back.now.items) done.old outside.old groups.old.items }
    ensures grouping { IfOk result (λ _. IsGrouping (graph_view graph.now.items) (graph_view back.now.items) done.new outside.new groups.new.items) }
    ensures more { IfOk result (λ _. (m : ℕ) → mark_at done.old m ≡ true → mark_at done.new m ≡ true) }
    ensures here { IfOk result (λ _. node < length (graph_view graph.now.items) → mark_at done.new node ≡ true) }
{
    if node >= graph.len() {
        return Ok(());
    }
    if is_marked(done, node) {
        return Ok(());
    }
    add_group(alloc, graph, back, done, outside, groups, node)
}

/// Puts the groups of these nodes together.
fn add_groups(
    alloc: Global,
    graph: &Vec<Vec<usize>>,
    back: &Vec<Vec<usize>>,
    done: &mut [bool],
    outside: &mut [bool],
    groups: &mut Vec<Option<usize>>,
    nodes: &Vec<usize>,
) -> Result<(), AllocError>
    requires closed { IsClosed (graph_view graph.now.items) }
    requires back { IsTurned (graph_view graph.now.items) (graph_view back.now.items) }
    requires back_closed { IsClosed (graph_view back.now.items) }
    requires before { IsGrouping (graph_view graph.now.items) (graph_view back.now.items) done.old outside.old groups.old.items }
    ensures { IfOk result (λ _. IsGrouping (graph_view graph.now.items) (graph_view back.now.items) done.new outside.new groups.new.items) }
{
    for node in nodes {
        add_group_once(alloc, graph, back, done, outside, groups, *node)?;
    }
    Ok(())
}

/// Of each node the number of its group: two nodes have one number exactly if they reach each other.
///
/// `graph` has of each node the nodes that it leads to. The work grows as nodes and edges do. Refused for want of memory alone.
pub fn groups_of(alloc: Global, graph: &Vec<Vec<usize>>) -> Result<Vec<Option<usize>>, AllocError>
    requires { IsClosed (graph_view graph.now.items) }
    ensures { IfOk result (λ groups. AreGroups (graph_view graph.now.items) groups.items) }
{
    let back = turned(alloc, graph)?;
    let order = first_finished_last(alloc, graph)?;
    let mut done = vec![in alloc; false; graph.len().max(back.len())]?;
    let mut outside = vec![in alloc; true; graph.len()]?;
    let mut groups = Vec::new(alloc);
    add_groups(
        alloc,
        graph,
        &back,
        &mut done,
        &mut outside,
        &mut groups,
        &order,
    )?;
    // that the order has each node is not proved
    for node in 0..graph.len() {
        add_group_once(
            alloc,
            graph,
            &back,
            &mut done,
            &mut outside,
            &mut groups,
            node,
        )?;
    }
    Ok(groups)
}
