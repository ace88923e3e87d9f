//! A graph as a text.

use crate::declarations::{Referred, push_declarations, referred_in};
use crate::drawing::{View, push_escaped, push_kept};
use crate::marks::{FaultText, marks_of, texts_of};
use crate::modules::push_modules;
use crate::ways::{Ways, ways_of};
use std::alloc::{AllocError, Global};
use std::mem::replace;
use wesl_explain_world::Explanation;

/// What a graph is drawn of.
#[derive(Clone, Copy, PartialEq, Eq)]
pub enum Graph {
    /// The modules that were loaded, and who loads them.
    Modules,
    /// The declarations that are held, and who refers to them.
    Declarations,
}

/// The word of a graph.
fn word_of(graph: Graph) -> &'static str {
    match graph {
        Graph::Modules => "modules",
        Graph::Declarations => "declarations",
    }
}

/// What is drawn between nodes.
#[derive(Drop)]
enum Between {
    Modules(Ways),
    Declarations(Referred),
}

/// What is drawn between the nodes of a graph.
fn between_in(alloc: Global, told: &Explanation, graph: Graph) -> Result<Between, AllocError> {
    match graph {
        Graph::Modules => Ok(Between::Modules(ways_of(alloc, told)?)),
        Graph::Declarations => Ok(Between::Declarations(referred_in(alloc, told)?)),
    }
}

/// Writes the texts of the faults that no module is asked for, as what the whole is called.
fn push_title(out: &mut String, texts: &[FaultText]) -> Result<(), AllocError> {
    let mut is_first = true;
    for fault in texts {
        if fault.is_alone {
            out.push_str(if is_first { "  label=\"" } else { "\\n" })?;
            push_escaped(out, fault.text.as_str())?;
            is_first = false;
        }
    }
    if is_first {
        return Ok(());
    }
    out.push_str("\";\n")
}

/// An explanation as a graph in the language of Graphviz (`dot`). Refused for want of memory alone.
pub fn graph_of(alloc: Global, told: Explanation, graph: Graph) -> Result<String, AllocError> {
    let mut told = told;
    let between = between_in(alloc, &told, graph)?;
    let marks = marks_of(alloc, &told, graph)?;
    let texts = texts_of(alloc, replace(&mut told.faults, Vec::new(alloc)))?;
    let view = View {
        told: &told,
        graph,
        marks: &marks,
        texts: &texts,
    };
    let mut out = String::from_str(alloc, "digraph ")?;
    out.push_str(word_of(graph))?;
    out.push_str(" {\n  rankdir=\"LR\";\n  node [shape=\"box\"];\n")?;
    push_title(&mut out, &texts)?;
    push_kept(&mut out, view)?;
    match &between {
        Between::Modules(ways) => push_modules(&mut out, alloc, view, ways)?,
        Between::Declarations(referred) => push_declarations(&mut out, alloc, view, referred)?,
    }
    out.push_str("}\n")?;
    Ok(out)
}
