//! Nodes and arrows in the language of Graphviz.

use crate::graph::Graph;
use crate::marks::{FaultText, Mark, Marks};
use crate::nodes::{Arrow, Nodes};
use std::alloc::AllocError;
use wesl_explain_world::{Explanation, NameId, Node, PathId};

/// What is drawn.
#[derive(Clone, Copy)]
pub struct View<'v> {
    pub told: &'v Explanation,
    pub graph: Graph,
    pub marks: &'v Marks,
    pub texts: &'v [FaultText],
}

/// Writes a text as it stands between quotes.
pub fn push_escaped(out: &mut String, text: &str) -> Result<(), AllocError> {
    for character in text.chars() {
        match character {
            '"' => out.push_str("\\\"")?,
            '\\' => out.push_str("\\\\")?,
            '\n' => out.push_str("\\n")?,
            other => out.push(other)?,
        }
    }
    Ok(())
}

/// Writes what a node is called. Among declarations a module stands for what its const_asserts ask for, and is called so.
fn push_name(
    out: &mut String,
    view: View<'_>,
    node: Node<PathId, NameId>,
) -> Result<(), AllocError> {
    match node {
        Node::KeptName(name) => {
            out.push_str("`")?;
            push_escaped(out, view.told.name(name))?;
            out.push_str("` is kept")
        }
        Node::Module(path) => {
            if view.graph == Graph::Declarations {
                out.push_str("module ")?;
            }
            push_escaped(out, view.told.path(path))
        }
        Node::Item(symbol) => {
            push_escaped(out, view.told.path(symbol.path))?;
            out.push_str("::")?;
            push_escaped(out, view.told.name(symbol.name))
        }
    }
}

/// Writes what a node is called, between quotes.
fn push_quoted(
    out: &mut String,
    view: View<'_>,
    node: Node<PathId, NameId>,
) -> Result<(), AllocError> {
    out.push_str("\"")?;
    push_name(out, view, node)?;
    out.push_str("\"")
}

/// Writes an attribute that has a text, the first of its line or a further one.
fn push_attribute(
    out: &mut String,
    is_first: bool,
    key: &str,
    text: &str,
) -> Result<(), AllocError> {
    out.push_str(if is_first { " [" } else { ", " })?;
    out.push_str(key)?;
    out.push_str("=\"")?;
    push_escaped(out, text)?;
    out.push_str("\"")
}

/// The color of a node that is marked: what is faulty, or who asks for it.
fn color_of(mark: &Mark) -> &'static str {
    if mark.is_faulty { "red" } else { "orange" }
}

/// Writes the text of the fault with a number.
fn push_text(out: &mut String, texts: &[FaultText], number: usize) -> Result<(), AllocError> {
    match texts.get(number) {
        Some(fault) => push_escaped(out, fault.text.as_str()),
        None => Ok(()),
    }
}

/// Writes the texts of the faults of a mark as an attribute, a line each.
fn push_texts(out: &mut String, texts: &[FaultText], mark: &Mark) -> Result<(), AllocError> {
    out.push_str(", tooltip=\"")?;
    push_text(out, texts, mark.first)?;
    for number in &mark.others {
        out.push_str("\\n")?;
        push_text(out, texts, *number)?;
    }
    out.push_str("\"")
}

/// Writes how a node looks: what is said of it, and then how it is marked.
fn push_look(
    out: &mut String,
    texts: &[FaultText],
    said: Option<(&str, &str)>,
    mark: Option<&Mark>,
) -> Result<(), AllocError> {
    if let Some((key, text)) = said {
        push_attribute(out, true, key, text)?;
    }
    if let Some(mark) = mark {
        push_attribute(out, said.is_none(), "color", color_of(mark))?;
        push_texts(out, texts, mark)?;
    }
    if said.is_some() || mark.is_some() {
        out.push_str("]")?;
    }
    Ok(())
}

/// Writes a node on a line of its own, with an attribute if one is said.
pub fn push_node(
    out: &mut String,
    view: View<'_>,
    before: &str,
    node: Node<PathId, NameId>,
    said: Option<(&str, &str)>,
) -> Result<(), AllocError> {
    out.push_str(before)?;
    push_quoted(out, view, node)?;
    push_look(out, view.texts, said, view.marks.at(node))?;
    out.push_str(";\n")
}

/// Writes an arrow on a line of its own. `look` stands in it as it is.
pub fn push_arrow(
    out: &mut String,
    view: View<'_>,
    arrow: Arrow,
    look: &str,
) -> Result<(), AllocError> {
    out.push_str("  ")?;
    push_quoted(out, view, arrow.from)?;
    out.push_str(" -> ")?;
    push_quoted(out, view, arrow.to)?;
    out.push_str(look)?;
    out.push_str(";\n")
}

/// Writes the beginning of a frame round nodes.
pub fn push_frame(out: &mut String, name: &str) -> Result<(), AllocError> {
    out.push_str("  subgraph \"cluster_")?;
    push_escaped(out, name)?;
    out.push_str("\" {\n    label=\"")?;
    push_escaped(out, name)?;
    out.push_str("\";\n")
}

/// Writes the names that are kept.
pub fn push_kept(out: &mut String, view: View<'_>) -> Result<(), AllocError> {
    for name in &view.told.kept {
        push_node(
            out,
            view,
            "  ",
            Node::KeptName(*name),
            Some(("shape", "plaintext")),
        )?;
    }
    Ok(())
}

/// Whether a node is drawn: a name that is kept, or one of these.
fn is_drawn(drawn: &Nodes, node: Node<PathId, NameId>) -> bool {
    match node {
        Node::KeptName(_) => true,
        _ => drawn.has(node),
    }
}

/// How a marked node looks that is not drawn elsewhere: what is faulty is not held, and a module that only asks is there.
fn look_of(mark: &Mark) -> Option<(&'static str, &'static str)> {
    if mark.is_faulty {
        Some(("style", "dashed"))
    } else {
        None
    }
}

/// Writes what is marked beside the nodes that are drawn.
pub fn push_marked(out: &mut String, view: View<'_>, drawn: &Nodes) -> Result<(), AllocError> {
    for mark in &view.marks.list {
        if !is_drawn(drawn, mark.node) {
            push_node(out, view, "  ", mark.node, look_of(mark))?;
        }
    }
    Ok(())
}
