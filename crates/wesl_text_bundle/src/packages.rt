//! The packages of a bundle.
use crate::modules::{inner_module, trees_in};
use crate::nesting::{Entry, depth_of, key_of, nested};
use serde_json::{Map, Value, put};
use std::alloc::{AllocError, Global};
use std::collections::BTreeMap;
use wesl_text_link::ReadModules;

/// The packages of a project, each with the modules that were read in it; none where it has none.
pub(crate) fn packages_value(
    alloc: Global,
    modules: ReadModules<'_>,
) -> Result<Option<Value>, AllocError> {
    let names = package_names(alloc, modules)?;
    if names.is_empty() {
        return Ok(None);
    }
    let mut entries = Vec::new(alloc);
    for (key, name) in names.iter() {
        entries.push(Entry {
            depth: depth_of(key.as_str()),
            members: package(alloc, modules, key.as_str(), name.as_str())?,
        })?;
    }
    Ok(Some(Value::Array(nested(alloc, entries, "dependencies")?)))
}

// The names of the packages as a link has them, by their keys.
fn package_names(
    alloc: Global,
    modules: ReadModules<'_>,
) -> Result<BTreeMap<String, String>, AllocError> {
    let mut names = BTreeMap::new(alloc);
    for package in &modules.layout.packages {
        let name = modules.libraries.linked(alloc, package.name.as_str())?;
        if !name.as_str().starts_with('/') {
            add_names(alloc, &mut names, name.as_str())?;
        }
    }
    Ok(names)
}

// Adds a package, and those by which it is used.
fn add_names(
    alloc: Global,
    names: &mut BTreeMap<String, String>,
    name: &str,
) -> Result<(), AllocError> {
    let mut parts: Vec<String> = Vec::new(alloc);
    let mut whole = String::new(alloc);
    for part in name.split('/') {
        if !whole.is_empty() {
            whole.push('/')?;
        }
        whole.push_str(part)?;
        parts.push(String::from_str(alloc, part)?)?;
        names.insert(key_of(alloc, &parts)?, whole.clone()?)?;
    }
    Ok(())
}

// A package without what it uses.
fn package(
    alloc: Global,
    modules: ReadModules<'_>,
    key: &str,
    name: &str,
) -> Result<Map<String, Value>, AllocError> {
    let mut trees = trees_in(alloc, modules, name)?;
    let root = match trees.remove("") {
        Some(tree) => tree,
        None => Value::Object(Map::new(alloc)),
    };
    let mut members = inner_module(alloc, key, root)?;
    let inner = nested_modules(alloc, trees)?;
    if !inner.is_empty() {
        put(&mut members, alloc, "modules", Value::Array(inner))?;
    }
    Ok(members)
}

// Modules by their keys, nested.
fn nested_modules(alloc: Global, trees: BTreeMap<String, Value>) -> Result<Vec<Value>, AllocError> {
    let mut entries = Vec::new(alloc);
    for (key, tree) in trees {
        entries.push(Entry {
            depth: depth_of(key.as_str()),
            members: inner_module(alloc, key.as_str(), tree)?,
        })?;
    }
    nested(alloc, entries, "modules")
}
