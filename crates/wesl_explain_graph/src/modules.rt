//! The modules that were loaded, and who loads them.

use crate::drawing::{View, push_arrow, push_frame, push_marked, push_node};
use crate::nodes::Nodes;
use crate::ways::Ways;
use std::alloc::{AllocError, Global};
use wesl_explain_text::loaded_in;
use wesl_explain_world::Node;

/// The package of a path: what stands before its first separator.
fn package_of(path: &str) -> &str {
    match path.split_once("::") {
        Some((package, _)) => package,
        None => path,
    }
}

/// Writes the modules, those of a package that follow one another in a frame.
fn push_nodes(out: &mut String, view: View<'_>, nodes: &mut Nodes) -> Result<(), AllocError> {
    let mut package: Option<&str> = None;
    for path in loaded_in(view.told) {
        let own = package_of(view.told.path(*path));
        if package != Some(own) {
            push_end(out, package.is_some())?;
            push_frame(out, own)?;
            package = Some(own);
        }
        nodes.put(Node::Module(*path))?;
        push_node(out, view, "    ", Node::Module(*path), None)?;
    }
    push_end(out, package.is_some())
}

/// Writes the end of a frame, if there is one.
fn push_end(out: &mut String, is_open: bool) -> Result<(), AllocError> {
    if is_open {
        out.push_str("  }\n")?;
    }
    Ok(())
}

/// Writes who loads which module, and by what.
fn push_ways(
    out: &mut String,
    alloc: Global,
    view: View<'_>,
    ways: &Ways,
) -> Result<(), AllocError> {
    for (place, arrow) in ways.arrows.iter().enumerate() {
        let look = look_of(alloc, ways.labels.get(place))?;
        push_arrow(out, view, *arrow, look.as_str())?;
    }
    Ok(())
}

/// How an arrow looks that has these lines.
fn look_of(alloc: Global, label: Option<&String>) -> Result<String, AllocError> {
    let mut look = String::new(alloc);
    if let Some(label) = label {
        if !label.is_empty() {
            look.push_str(" [label=\"")?;
            look.push_str(label.as_str())?;
            look.push_str("\"]")?;
        }
    }
    Ok(look)
}

/// Writes the modules that were loaded, and who loads them.
pub fn push_modules(
    out: &mut String,
    alloc: Global,
    view: View<'_>,
    ways: &Ways,
) -> Result<(), AllocError> {
    let mut nodes = Nodes::new(alloc);
    push_nodes(out, view, &mut nodes)?;
    push_marked(out, view, &nodes)?;
    push_ways(out, alloc, view, ways)
}
