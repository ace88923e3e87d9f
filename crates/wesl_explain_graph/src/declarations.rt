//! The declarations that are held, and who refers to them.

use crate::asked::{Asked, asked_in, held_in, node_of, places_of};
use crate::drawing::{View, push_arrow, push_frame, push_marked, push_node};
use crate::graph::Graph;
use crate::marks::{asking_node, faulty_node};
use crate::nodes::{Arrow, Arrows, Nodes};
use std::alloc::{AllocError, Global};
use wesl_explain_text::loaded_in;
use wesl_explain_world::{Explanation, LinkFault, NameId, PathId};

/// Who refers to which declaration that is held, and who asks for what is faulty.
#[derive(Drop)]
pub struct Referred {
    held: Vec<Arrow>,
    wrong: Vec<Arrow>,
}

/// Writes the declarations of a name of a module, unless they are written, or its const_asserts.
fn push_declaration(
    out: &mut String,
    view: View<'_>,
    nodes: &mut Nodes,
    path: PathId,
    name: Option<NameId>,
) -> Result<(), AllocError> {
    let node = node_of(path, name);
    if nodes.has(node) {
        return Ok(());
    }
    nodes.put(node)?;
    let label = match name {
        Some(name) => view.told.name(name),
        None => "const_assert",
    };
    push_node(out, view, "    ", node, Some(("label", label)))
}

/// Writes the held declarations of a module in a frame, if there are some.
fn push_module(
    out: &mut String,
    view: View<'_>,
    nodes: &mut Nodes,
    path: PathId,
    held: &[Option<NameId>],
) -> Result<(), AllocError> {
    if held.is_empty() {
        return Ok(());
    }
    push_frame(out, view.told.path(path))?;
    for name in held {
        push_declaration(out, view, nodes, path, *name)?;
    }
    out.push_str("  }\n")
}

/// Writes the held declarations, module by module.
fn push_nodes(
    out: &mut String,
    alloc: Global,
    view: View<'_>,
    nodes: &mut Nodes,
) -> Result<(), AllocError> {
    let places = places_of(alloc, view.told)?;
    for path in loaded_in(view.told) {
        let held = held_in(alloc, view.told, &places, *path)?;
        push_module(out, view, nodes, *path, &held)?;
    }
    Ok(())
}

/// Adds who asks for what is faulty.
fn add_askers(wrong: &mut Arrows, graph: Graph, link: &LinkFault) -> Result<(), AllocError> {
    let to = faulty_node(graph, link);
    for asked in &link.uses {
        let from = asking_node(graph, *asked);
        if from != to {
            wrong.put(Arrow { from, to })?;
        }
    }
    Ok(())
}

/// Who asks for what is faulty.
fn wrong_arrows(alloc: Global, told: &Explanation) -> Result<Vec<Arrow>, AllocError> {
    let mut wrong = Arrows::new(alloc);
    for fault in &told.faults {
        if let Some(link) = &fault.link {
            add_askers(&mut wrong, Graph::Declarations, link)?;
        }
    }
    Ok(wrong.into_list())
}

/// Who refers to which declaration.
pub fn referred_in(alloc: Global, told: &Explanation) -> Result<Referred, AllocError> {
    let Asked { look_ups: _, held } = asked_in(alloc, told)?;
    Ok(Referred {
        held,
        wrong: wrong_arrows(alloc, told)?,
    })
}

/// Writes arrows that look so.
fn push_arrows(
    out: &mut String,
    view: View<'_>,
    arrows: &[Arrow],
    look: &str,
) -> Result<(), AllocError> {
    for arrow in arrows {
        push_arrow(out, view, *arrow, look)?;
    }
    Ok(())
}

/// Writes the declarations that are held, and who refers to them.
pub fn push_declarations(
    out: &mut String,
    alloc: Global,
    view: View<'_>,
    referred: &Referred,
) -> Result<(), AllocError> {
    let mut nodes = Nodes::new(alloc);
    push_nodes(out, alloc, view, &mut nodes)?;
    push_marked(out, view, &nodes)?;
    push_arrows(out, view, &referred.held, "")?;
    push_arrows(out, view, &referred.wrong, " [color=\"red\"]")
}
