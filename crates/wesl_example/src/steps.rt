//! A link in two steps: the modules are let go before the unit is made.
use crate::Trees;
use serde_json::Value;
use std::alloc::Global;
use wesl_link::{FoundLink, LinkRequest, find_mapped};
use wesl_mangle::EscapeMangler;
use wesl_source_map::{BasicSourceMap, SourceMapper};
use wesl_tree::{Diagnostic, Error, ModulePath};

/// What a link of the modules finds. They are let go when it returns.
fn found(alloc: Global, modules: Trees) -> Result<FoundLink<EscapeMangler>, Diagnostic> {
    let mut root = ModulePath::new_root(alloc);
    root.push("main")?;
    let mapper = SourceMapper::new(alloc, root.try_clone(alloc)?, modules, EscapeMangler);
    let request = LinkRequest {
        root: &root,
        keep: &["main"],
        is_eager: false,
        max_modules: 1000,
    };
    find_mapped(alloc, &request, mapper, None)
}

/// A line for each name of a map, with the item that it stands for.
fn lines(alloc: Global, map: &BasicSourceMap) -> Result<String, Error> {
    let mut text = String::new(alloc);
    for (name, path, item) in map.decls(alloc)? {
        text.push_str(format!(in alloc; "{name} is {item} of {path}\n")?.as_str())?;
    }
    Ok(text)
}

/// The lines of the names that are given to what was found.
fn named(alloc: Global, found: FoundLink<EscapeMangler>) -> Result<String, anyhow::Error> {
    let made = found.finish(alloc, false)?;
    Ok(lines(alloc, &made.map)?)
}

/// A line for each name that is given in the link of the modules of a text, or the refusal of the link.
pub fn names_given(alloc: Global, text: &str) -> Result<String, anyhow::Error> {
    let trees = Value::from_str(alloc, text)?;
    match found(alloc, Trees { trees }) {
        Ok(found) => named(alloc, found),
        Err(refusal) => Ok(format!(in alloc; "refused: {refusal}")?),
    }
}
