//! Values of nodes.
ghost use Rattle.std.specs.Prelude.{◌≡◌, ◌<◌, ◌+◌, ◌==◌, ◌↔◌, ℕ, length, Some, None, if◌then◌else◌, IfOk};
ghost use Rattle.std.specs.Option.{option_or};
ghost use Rattle.wesl_scope_graph.specs.Graphs.{graph_view, IsClosed, Leads};
ghost use Rattle.wesl_scope_values.specs.Values.{IsHandedOn, IsLeast, value_at};
ghost use Rattle.wesl_scope_values.specs.Walks.{AreFirst, AreHandedOn, SetsFirst};

use crate::turning::add_from_each;
use crate::walking::{clear, walk};
use std::alloc::{AllocError, Global};

/// Gives the value to the nodes that have it by themselves, and to those that they reach.
fn hand_on(
    alloc: Global,
    graph: &Vec<Vec<usize>>,
    told: &Vec<Vec<usize>>,
    marks: &mut [bool],
    values: &mut Vec<Vec<usize>>,
    value: usize,
) -> Result<(), AllocError>
    requires closed { IsClosed (graph_view graph.now.items) }
    requires inside { value < length told.now.items }
    requires before { AreHandedOn (graph_view graph.now.items) (graph_view told.now.items) value marks.old (graph_view values.old.items) }
    ensures { IfOk result (λ _. AreHandedOn (graph_view graph.now.items) (graph_view told.now.items) (value + 1) marks.new (graph_view values.new.items)) }
{
    let nodes = walk(alloc, graph, marks, &told[value])?;
    add_from_each(alloc, values, &nodes, value)?;
    clear(marks, &nodes);
    Ok(())
}

/// Of each node the values that it has: those of which `told` lists it, and those that a node from which it is reached has.
///
/// `told` lists of each value the nodes that have it by themselves, and `count` is how many nodes there are. For each value
/// it goes once over the nodes that have it. Refused for want of memory alone.
pub fn all_values(
    alloc: Global,
    graph: &Vec<Vec<usize>>,
    told: &Vec<Vec<usize>>,
    count: usize,
) -> Result<Vec<Vec<usize>>, AllocError>
    requires { IsClosed (graph_view graph.now.items) }
    ensures { IfOk result (λ values. (m v : ℕ) → Leads (graph_view values.items) m v ↔ IsHandedOn (graph_view graph.now.items) (graph_view told.now.items) v m) }
{
    let mut marks = vec![in alloc; false; graph.len().max(count)]?;
    let mut values = Vec::new(alloc);
    for value in 0..told.len() {
        hand_on(alloc, graph, told, &mut marks, &mut values, value)?;
    }
    Ok(values)
}

/// Adds nodes without a value until there is one of this number.
#[tactic(auto, using(crate::proofs::HandedOn::one_more))]
fn grow(values: &mut Vec<Option<usize>>, node: usize) -> Result<(), AllocError>
    ensures there { IfOk result (λ _. node < length values.new.items) }
    ensures same { IfOk result (λ _. (m : ℕ) → value_at values.new.items m ≡ value_at values.old.items m) }
{
    while values.len() <= node {
        values.push(None)?;
    }
    Ok(())
}

/// Gives a node its value, unless it has one.
fn set_first(values: &mut Vec<Option<usize>>, node: usize, value: usize) -> Result<(), AllocError>
    ensures { IfOk result (λ _. (m : ℕ) → value_at values.new.items m ≡ option_or (value_at values.old.items m) (if node == m then Some value else None)) }
{
    grow(values, node)?;
    match values[node] {
        Some(_) => {}
        None => values[node] = Some(value),
    }
    Ok(())
}

/// Gives each of these nodes its value, unless it has one.
pub fn set_all_first(
    values: &mut Vec<Option<usize>>,
    nodes: &Vec<usize>,
    value: usize,
) -> Result<(), AllocError>
    ensures { IfOk result (λ _. SetsFirst nodes.now.items value values.old.items values.new.items) }
{
    for node in nodes {
        set_first(values, *node, value)?;
    }
    Ok(())
}

/// Gives the value to the nodes that have it by themselves and to those that they reach, unless they have one.
fn hand_on_first(
    alloc: Global,
    graph: &Vec<Vec<usize>>,
    told: &Vec<Vec<usize>>,
    marks: &mut [bool],
    values: &mut Vec<Option<usize>>,
    value: usize,
) -> Result<(), AllocError>
    requires closed { IsClosed (graph_view graph.now.items) }
    requires inside { value < length told.now.items }
    requires before { AreFirst (graph_view graph.now.items) (graph_view told.now.items) value marks.old values.old.items }
    ensures { IfOk result (λ _. AreFirst (graph_view graph.now.items) (graph_view told.now.items) (value + 1) marks.new values.new.items) }
{
    let nodes = walk(alloc, graph, marks, &told[value])?;
    set_all_first(values, &nodes, value)
}

/// Of each node the least of its values, if it has one: of those of which `told` lists it, and those that a node from
/// which it is reached has. A node past the end has none.
///
/// `told` lists of each value the nodes that have it by themselves. It goes over the graph once. Refused for want of
/// memory alone.
pub fn least_values(
    alloc: Global,
    graph: &Vec<Vec<usize>>,
    told: &Vec<Vec<usize>>,
) -> Result<Vec<Option<usize>>, AllocError>
    requires { IsClosed (graph_view graph.now.items) }
    ensures { IfOk result (λ values. (m : ℕ) → IsLeast (graph_view graph.now.items) (graph_view told.now.items) m (value_at values.items m)) }
{
    let mut marks = vec![in alloc; false; graph.len()]?;
    let mut values = Vec::new(alloc);
    for value in 0..told.len() {
        hand_on_first(alloc, graph, told, &mut marks, &mut values, value)?;
    }
    Ok(values)
}

/// The value that is kept of a node, if there is one.
pub fn value_of(values: &Vec<Option<usize>>, node: usize) -> Option<usize>
    ensures { result ≡ value_at values.now.items node }
{
    if node < values.len() {
        values[node]
    } else {
        None
    }
}
