//! The modules of a bundle, with their trees.
use crate::nesting::{key_of, last_of};
use crate::units::{BundledUnit, bundled};
use serde_json::{Map, Value, push, put};
use std::alloc::{AllocError, Global};
use std::collections::BTreeMap;
use wesl_json::value_of_unit_2;
use wesl_text_link::{ReadModule, ReadModules};
use wesl_tree::{ModulePath, PathOrigin};

/// The modules of the project itself, in the order of their components.
pub(crate) fn own_modules(alloc: Global, modules: ReadModules<'_>) -> Result<Value, AllocError> {
    let mut found = BTreeMap::new(alloc);
    for (path, module) in modules.read.iter() {
        if package_of(path).is_none() {
            let key = key_of(alloc, &path.components)?;
            found.insert(key, own_module(alloc, modules, path, module)?)?;
        }
    }
    let mut listed = Vec::new(alloc);
    for (_, module) in found {
        push(&mut listed, module)?;
    }
    Ok(Value::Array(listed))
}

// A module with its path.
fn own_module(
    alloc: Global,
    modules: ReadModules<'_>,
    path: &ModulePath,
    module: &ReadModule,
) -> Result<Value, AllocError> {
    let mut members = Map::new(alloc);
    put(
        &mut members,
        alloc,
        "path",
        Value::String(format!(in alloc; "{path}")?),
    )?;
    put(
        &mut members,
        alloc,
        "unit",
        tree_of(alloc, modules, path, module)?,
    )?;
    Ok(Value::Object(members))
}

// The package in which a module lies.
fn package_of(path: &ModulePath) -> Option<&str> {
    match &path.origin {
        PathOrigin::Package(name) => Some(name.as_str()),
        _ => None,
    }
}

// The tree of a module, or what tells why there is none.
fn tree_of(
    alloc: Global,
    modules: ReadModules<'_>,
    path: &ModulePath,
    module: &ReadModule,
) -> Result<Value, AllocError> {
    match bundled(alloc, modules, path, module)? {
        BundledUnit::Unit(unit) => match value_of_unit_2(alloc, &unit) {
            Ok(tree) => Ok(tree),
            Err(_) => Err(AllocError),
        },
        BundledUnit::Fault(line) => {
            let mut members = Map::new(alloc);
            put(&mut members, alloc, "form", Value::from(2_u64))?;
            put(&mut members, alloc, "syntax error", Value::String(line))?;
            Ok(Value::Object(members))
        }
    }
}

/// The trees of the modules of a package by their keys, with empty ones for those in which modules lie.
pub(crate) fn trees_in(
    alloc: Global,
    modules: ReadModules<'_>,
    package: &str,
) -> Result<BTreeMap<String, Value>, AllocError> {
    let mut trees = BTreeMap::new(alloc);
    for (path, module) in modules.read.iter() {
        if package_of(path) == Some(package) {
            let tree = tree_of(alloc, modules, path, module)?;
            trees.insert(key_of(alloc, &path.components)?, tree)?;
            add_outer(alloc, &mut trees, &path.components)?;
        }
    }
    Ok(trees)
}

// Adds empty trees for the modules in which one lies, where they have none.
fn add_outer(
    alloc: Global,
    trees: &mut BTreeMap<String, Value>,
    components: &[String],
) -> Result<(), AllocError> {
    for count in 1..components.len() {
        let key = key_of(alloc, components.get(..count).unwrap_or(components))?;
        if trees.get(key.as_str()).is_none() {
            trees.insert(key, Value::Object(Map::new(alloc)))?;
        }
    }
    Ok(())
}

/// A module of a package, by its key.
pub(crate) fn inner_module(
    alloc: Global,
    key: &str,
    tree: Value,
) -> Result<Map<String, Value>, AllocError> {
    let mut members = Map::new(alloc);
    put(
        &mut members,
        alloc,
        "name",
        Value::try_from_str(alloc, last_of(key))?,
    )?;
    put(&mut members, alloc, "unit", tree)?;
    Ok(members)
}
