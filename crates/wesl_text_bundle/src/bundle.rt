//! The bundle of a link.
use crate::modules::own_modules;
use crate::options::{features_value, mangler_word, texts_value};
use crate::packages::packages_value;
use crate::units::kept_names;
use serde_json::{Map, Value, put};
use std::alloc::{AllocError, Global};
use wesl_text_link::{LinkWish, ReadModules};

/// The bundle of a link, as a line: of the modules that it read, with what it was asked for. It has these built-in names, if any are
/// given. Of a project in which a library has several chains its modules are as the link has them, each library once.
///
/// # Errors
///
/// An error means that memory ran out.
pub fn bundle_of(
    alloc: Global,
    modules: ReadModules<'_>,
    wish: &LinkWish<'_>,
    builtins: Option<Value>,
) -> Result<String, AllocError> {
    let mut members = Map::new(alloc);
    put(&mut members, alloc, "form", Value::from(2_u64))?;
    add_link(alloc, &mut members, modules, wish)?;
    put(&mut members, alloc, "modules", own_modules(alloc, modules)?)?;
    if let Some(packages) = packages_value(alloc, modules)? {
        put(&mut members, alloc, "packages", packages)?;
    }
    if let Some(features) = modules.features {
        put(
            &mut members,
            alloc,
            "features",
            features_value(alloc, features)?,
        )?;
    }
    if let Some(builtins) = builtins {
        put(&mut members, alloc, "builtins", builtins)?;
    }
    let mut line = Value::Object(members).to_string(alloc)?;
    line.push('\n')?;
    Ok(line)
}

// Adds the root, what is kept of it, and how names are written.
fn add_link(
    alloc: Global,
    members: &mut Map<String, Value>,
    modules: ReadModules<'_>,
    wish: &LinkWish<'_>,
) -> Result<(), AllocError> {
    let root = wish.root;
    let root = format!(in alloc; "{root}")?;
    put(members, alloc, "root", Value::String(root))?;
    let keep = kept_names(alloc, modules, wish)?;
    put(members, alloc, "keep", texts_value(alloc, &keep)?)?;
    let mangler = mangler_word(wish.naming);
    put(
        members,
        alloc,
        "mangler",
        Value::try_from_str(alloc, mangler)?,
    )?;
    if wish.mangle_root {
        put(members, alloc, "mangle_root", Value::Bool(true))?;
    }
    if wish.is_eager {
        put(members, alloc, "eager", Value::Bool(true))?;
    }
    Ok(())
}
