//! Rings of a graph, by a search along its edges.
ghost use Rattle.std.specs.Prelude.{◌≡◌, ◌≢◌, ◌<◌, ℕ, [], length, map, reverse, IfOk, IfSome, IfNone};
ghost use Rattle.wesl_validate_rules.specs.Graphs.{graph_view, IsClosed, IsGrounded, IsRing};
ghost use Rattle.wesl_validate_rules.specs.Searches.{IsSearch, stage_at};
ghost use Rattle.wesl_validate_rules.specs.declared.graph.Mark.TheVariants.{New};

use std::alloc::{AllocError, Global};

/// How far a search is with a node.
#[derive(Clone, Copy)]
enum Mark {
    /// it was not met
    New,
    /// it is on the way to the node that is looked at
    Open,
    /// all that it leads to is done
    Done,
}

/// Goes on with a search until its way is empty or an edge closes a ring.
fn go_on(
    graph: &[Vec<usize>],
    marks: &mut [Mark],
    left: &mut [usize],
    way: &mut Vec<usize>,
) -> Result<Option<(usize, usize)>, AllocError>
    requires closed { IsClosed (graph_view graph.now) }
    requires begun { IsSearch (graph_view graph.now) marks.old left.old (reverse way.old.items) }
    ensures ring { IfOk result (λ r. IfSome r (λ p. IsRing (graph_view graph.now) p.0 p.1)) }
    ensures none { IfOk result (λ r. IfNone r (IsSearch (graph_view graph.now) marks.new left.new [])) }
    ensures emptied { IfOk result (λ r. IfNone r (way.new.items ≡ [])) }
    ensures met { IfOk result (λ r. IfNone r ((a : ℕ) → stage_at marks.old a ≢ New → stage_at marks.new a ≢ New)) }
{
    while let Some(node) = way.pop() {
        let edges = left[node];
        if edges > 0 {
            let target = graph[node][edges - 1];
            left[node] = edges - 1;
            way.push(node)?;
            match marks[target] {
                Mark::New => {
                    marks[target] = Mark::Open;
                    way.push(target)?;
                }
                Mark::Open => return Ok(Some((target, node))),
                Mark::Done => {}
            }
        } else {
            marks[node] = Mark::Done;
        }
    }
    Ok(None)
}

/// A mark for each node, none of which was met.
#[tactic(auto, using(crate::proofs::Turns::all_new))]
fn new_marks(alloc: Global, graph: &[Vec<usize>]) -> Result<Vec<Mark>, AllocError>
    ensures all { IfOk result (λ marks. length marks.items ≡ length graph.now) }
    ensures new { IfOk result (λ marks. (a : ℕ) → stage_at marks.items a ≡ New) }
{
    Ok(vec![in alloc; Mark::New; graph.len()]?)
}

/// Of each node, how many edges it has.
fn edge_counts(alloc: Global, graph: &[Vec<usize>]) -> Result<Vec<usize>, AllocError>
    ensures { IfOk result (λ left. left.items ≡ map (λ v. length v.items) graph.now) }
{
    let mut left = Vec::with_capacity(alloc, graph.len())?;
    for edges in graph {
        left.push(edges.len())?;
    }
    Ok(left)
}

/// Searches from a node, if it was not met.
fn search_from(
    start: usize,
    graph: &[Vec<usize>],
    marks: &mut [Mark],
    left: &mut [usize],
    way: &mut Vec<usize>,
) -> Result<Option<(usize, usize)>, AllocError>
    requires closed { IsClosed (graph_view graph.now) }
    requires begun { IsSearch (graph_view graph.now) marks.old left.old [] }
    requires empty { way.old.items ≡ [] }
    requires inside { start < length marks.old }
    ensures ring { IfOk result (λ r. IfSome r (λ p. IsRing (graph_view graph.now) p.0 p.1)) }
    ensures none { IfOk result (λ r. IfNone r (IsSearch (graph_view graph.now) marks.new left.new [])) }
    ensures emptied { IfOk result (λ r. IfNone r (way.new.items ≡ [])) }
    ensures met { IfOk result (λ r. IfNone r ((a : ℕ) → stage_at marks.old a ≢ New → stage_at marks.new a ≢ New)) }
    ensures here { IfOk result (λ r. IfNone r (stage_at marks.new start ≢ New)) }
{
    match marks[start] {
        Mark::New => {
            marks[start] = Mark::Open;
            way.push(start)?;
            go_on(graph, marks, left, way)
        }
        Mark::Open => Ok(None),
        Mark::Done => Ok(None),
    }
}

/// A ring of a graph, if it has one: the node where it begins, and the last one, which leads back there. It looks at
/// each edge once, and calls itself nowhere.
///
/// `graph` has of each node the nodes that it leads to. Refused for want of memory alone.
pub fn ring(alloc: Global, graph: &[Vec<usize>]) -> Result<Option<(usize, usize)>, AllocError>
    requires closed { IsClosed (graph_view graph.now) }
    ensures ring { IfOk result (λ r. IfSome r (λ p. IsRing (graph_view graph.now) p.0 p.1)) }
    ensures none { IfOk result (λ r. IfNone r ((a : ℕ) → IsGrounded (graph_view graph.now) a)) }
{
    let mut marks = new_marks(alloc, graph)?;
    let mut left = edge_counts(alloc, graph)?;
    let mut way = Vec::new(alloc);
    for start in 0..graph.len() {
        match search_from(start, graph, &mut marks, &mut left, &mut way)? {
            Some(found) => return Ok(Some(found)),
            None => {}
        }
    }
    Ok(None)
}
