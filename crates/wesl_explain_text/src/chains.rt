//! Chains, and what was loaded.

use std::alloc::{AllocError, Global};
use wesl_explain_world::{Chain, Cut, Explanation, NameId, Node, PathId, Symbol};

// How many steps of a chain are written before and after those that are left out.
const FIRST: usize = 3;

const LAST: usize = 6;

/// The modules that were loaded, for a link or until it was refused.
pub fn loaded_in(told: &Explanation) -> &[PathId] {
    match &told.until {
        Some(until) => &until.modules,
        None => &told.modules,
    }
}

/// Why the declarations of a name are held, or without a name why the module is loaded.
pub fn chain_of(
    alloc: Global,
    told: &Explanation,
    path: PathId,
    name: Option<NameId>,
) -> Result<Chain, AllocError> {
    let Some(until) = &told.until else {
        return told.steps(alloc, path, name);
    };
    let node = match name {
        Some(name) => Node::Item(Symbol { path, name }),
        None => Node::Module(path),
    };
    chain_at(alloc, told, until.held.place_of(node))
}

/// Why what stands at a place was held until a link was refused.
pub fn chain_at(
    alloc: Global,
    told: &Explanation,
    place: Option<usize>,
) -> Result<Chain, AllocError> {
    match (&told.until, place) {
        (Some(until), Some(place)) => until.held.chain(alloc, place),
        _ => Ok(Cut::new(alloc)),
    }
}

/// Writes a declaration of a module: the module's path and its name.
pub fn push_symbol(
    out: &mut String,
    told: &Explanation,
    path: PathId,
    name: NameId,
) -> Result<(), AllocError> {
    out.push_str(told.path(path))?;
    out.push_str("::")?;
    out.push_str(told.name(name))?;
    Ok(())
}

/// Writes a step of a chain.
fn push_node(
    out: &mut String,
    told: &Explanation,
    node: Node<PathId, NameId>,
) -> Result<(), AllocError> {
    match node {
        Node::KeptName(name) => {
            out.push_str("`")?;
            out.push_str(told.name(name))?;
            out.push_str("` is kept")?;
            Ok(())
        }
        Node::Module(path) => {
            out.push_str("module ")?;
            out.push_str(told.path(path))?;
            Ok(())
        }
        Node::Item(symbol) => push_symbol(out, told, symbol.path, symbol.name),
    }
}

/// Writes steps, each after an arrow.
fn push_nodes(
    out: &mut String,
    told: &Explanation,
    nodes: &[Node<PathId, NameId>],
) -> Result<(), AllocError> {
    for node in nodes {
        out.push_str(" -> ")?;
        push_node(out, told, *node)?;
    }
    Ok(())
}

/// The steps of a chain from one on, as far as it has so many.
fn steps_from(
    steps: &[Node<PathId, NameId>],
    from: usize,
    count: usize,
) -> &[Node<PathId, NameId>] {
    match steps.get(from..) {
        Some(rest) => match rest.get(..count) {
            Some(first) => first,
            None => rest,
        },
        None => &[],
    }
}

/// Writes a chain, without its middle where it is long.
pub fn push_chain(out: &mut String, told: &Explanation, chain: &Chain) -> Result<(), AllocError> {
    let beginning = chain.beginning();
    let Some(first) = beginning.first() else {
        return Ok(());
    };
    push_node(out, told, *first)?;
    if chain.len() <= 1 + FIRST + LAST {
        return push_nodes(out, told, steps_from(beginning, 1, FIRST + LAST));
    }
    push_nodes(out, told, steps_from(beginning, 1, FIRST))?;
    out.push_str(" -> ..")?;
    let ending = chain.ending();
    push_nodes(
        out,
        told,
        steps_from(ending, ending.len().saturating_sub(LAST), LAST),
    )
}
