//! The names that a linked unit leaves free, each with the declared name that is nearest to it.

use crate::explanation::FreeName;
use crate::world::World;
use std::alloc::{AllocError, Global};
use wesl_explain_faults::{NearNames, Texts};
use wesl_link_symbols::ids::{NameId, PathId};
use wesl_scope::free_names;
use wesl_tree::TranslationUnit;
use wesl_validate_builtins::Builtins;
use wesl_validate_wgsl::is_wgsl_name;

/// The declared name of loaded modules that is nearest, if one is near.
fn nearest(
    alloc: Global,
    world: &World,
    texts: &Texts,
    names: &mut NearNames,
    wanted: &str,
) -> Result<Option<(PathId, NameId)>, AllocError> {
    let Some(wanted) = names.wanted(wanted) else {
        return Ok(None);
    };
    let mut best = None;
    for path in &world.order {
        if let Some(table) = world.table(*path) {
            best = names.nearest_declared(alloc, texts, wanted, best, table)?;
        }
    }
    match best {
        Some(near) => Ok(Some((near.symbol.path, near.symbol.name))),
        None => Ok(None),
    }
}

/// The names that nothing in a unit declares.
fn undeclared(alloc: Global, unit: &TranslationUnit) -> Result<Vec<&str>, AllocError> {
    let none = Builtins::new(Vec::new(alloc), Vec::new(alloc), Vec::new(alloc));
    free_names(alloc, unit, &none).ok().ok_or(AllocError)
}

/// Whether a name is built in: by the bundle, or without a word of it by WGSL.
fn is_built_in(listed: Option<&Builtins>, name: &str) -> bool {
    match listed {
        Some(builtins) => builtins.is_defined(name),
        None => is_wgsl_name(name),
    }
}

/// The names that a linked unit leaves free. Built in are those that the bundle lists, and where it lists none, WGSL's.
pub fn free_in(
    alloc: Global,
    world: &World,
    texts: &Texts,
    unit: &TranslationUnit,
    listed: Option<&Builtins>,
) -> Result<Vec<FreeName>, AllocError> {
    let mut names = NearNames::new();
    let mut free = Vec::new(alloc);
    for name in &undeclared(alloc, unit)? {
        if !is_built_in(listed, name) {
            free.push(FreeName {
                name: String::from_str(alloc, name)?,
                near: nearest(alloc, world, texts, &mut names, name)?,
            })?;
        }
    }
    Ok(free)
}
