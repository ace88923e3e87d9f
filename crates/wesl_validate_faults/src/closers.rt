//! For each declaration the first that leads back to it.
ghost use Rattle.std.specs.Prelude.{◌≡◌, ◌++◌, true, IfOk, OnOk};
ghost use Rattle.std.specs.List.{filter};
ghost use Rattle.std.proofs.Common.{set};
ghost use Rattle.wesl_scope_graph.specs.Graphs.{graph_view, IsClosed};
ghost use Rattle.wesl_scope_graph.specs.Marks.{mark_at};
ghost use Rattle.wesl_scope_groups.specs.Groups.{AreGroups};
ghost use Rattle.wesl_validate_faults.specs.Gathered.{AreClosersNext, AreFirstClosers, edges_within, grouped_here, have_one_group};

use std::alloc::{AllocError, Global};
use wesl_scope_groups::groups_of;
use wesl_scope_values::{set_all_first, value_of};

/// Whether two nodes have one group.
fn have_one_group(groups: &Vec<Option<usize>>, node: usize, other: usize) -> bool
    ensures { result ≡ have_one_group groups.now.items node other }
{
    match value_of(groups, node) {
        None => false,
        Some(group) => match value_of(groups, other) {
            None => false,
            Some(another) => group == another,
        },
    }
}

/// Adds a node, if it has the group of another.
fn add_within(
    within: &mut Vec<usize>,
    groups: &Vec<Option<usize>>,
    last: usize,
    node: usize,
) -> Result<(), AllocError>
    ensures { IfOk result (λ _. within.new.items ≡ within.old.items ++ grouped_here groups.now.items last node) }
{
    if have_one_group(groups, last, node) {
        within.push(node)?;
    }
    Ok(())
}

/// Those of these nodes that have the group of another.
fn filtered(
    alloc: Global,
    groups: &Vec<Option<usize>>,
    last: usize,
    nodes: &Vec<usize>,
) -> Result<Vec<usize>, AllocError>
    ensures { IfOk result (λ within. within.items ≡ filter (have_one_group groups.now.items last) nodes.now.items) }
{
    let mut within = Vec::new(alloc);
    for node in nodes {
        add_within(&mut within, groups, last, *node)?;
    }
    Ok(within)
}

/// Those to which a node leads within its group.
fn nodes_within(
    alloc: Global,
    graph: &Vec<Vec<usize>>,
    groups: &Vec<Option<usize>>,
    last: usize,
) -> Result<Vec<usize>, AllocError>
    ensures { IfOk result (λ within. within.items ≡ edges_within groups.now.items (graph_view graph.now.items) last) }
{
    match graph.get(last) {
        None => Ok(Vec::new(alloc)),
        Some(targets) => filtered(alloc, groups, last, targets),
    }
}

/// Sets a node's mark, and answers whether it had it.
#[tactic(auto, using(wesl_scope_values::proofs::Walked::set_outside))]
fn replace_mark(marks: &mut Vec<bool>, node: usize) -> bool
    ensures before { result ≡ mark_at marks.old.items node }
    ensures marked { marks.new.items ≡ set marks.old.items node true }
{
    if node >= marks.len() {
        return false;
    }
    let was = marks[node];
    marks[node] = true;
    was
}

/// Notes a node for those to which it leads within its group, unless one is noted, or it was taken before.
fn note_closer(
    alloc: Global,
    closers: &mut Vec<Option<usize>>,
    taken: &mut Vec<bool>,
    graph: &Vec<Vec<usize>>,
    groups: &Vec<Option<usize>>,
    last: usize,
) -> Result<(), AllocError>
    requires closed { IsClosed (graph_view graph.now.items) }
    requires groups { AreGroups (graph_view graph.now.items) groups.now.items }
    ensures { OnOk result (AreClosersNext (graph_view graph.now.items) last taken.old.items taken.new.items closers.old.items closers.new.items) }
{
    if replace_mark(taken, last) {
        return Ok(());
    }
    let within = nodes_within(alloc, graph, groups, last)?;
    set_all_first(closers, &within, last)?;
    Ok(())
}

/// Of each node the first of these nodes that it reaches, or is, and that leads back to it. It goes over the graph a few times
/// for all of them. Refused for want of memory alone.
#[tactic(auto, using(crate::proofs::Closing::begins))]
pub(crate) fn closers_of(
    alloc: Global,
    graph: &Vec<Vec<usize>>,
    nodes: &Vec<usize>,
) -> Result<Vec<Option<usize>>, AllocError>
    requires { IsClosed (graph_view graph.now.items) }
    ensures { IfOk result (λ closers. AreFirstClosers (graph_view graph.now.items) nodes.now.items closers.items) }
{
    let groups = groups_of(alloc, graph)?;
    let mut taken = vec![in alloc; false; graph.len()]?;
    let mut closers = Vec::new(alloc);
    for last in nodes {
        note_closer(alloc, &mut closers, &mut taken, graph, &groups, *last)?;
    }
    Ok(closers)
}
