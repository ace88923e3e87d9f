//! What is held in a link.
ghost use Rattle.std.specs.Prelude.{◌≡◌, IfOk, OnOk, All};
ghost use Rattle.wesl_explain_world.specs.Explained.{IsHeldIn, AddsHeld};

use crate::explanation::HeldDeclaration;
use crate::world::World;
use std::alloc::{AllocError, Global};
use wesl_explain_faults::Texts;
use wesl_link_symbols::ids::{NameId, PathId};
use wesl_link_symbols::table::Table;
use wesl_mangle::Mangler;
use wesl_program::BundleMangler;
use wesl_program_bundle::{Naming, Options};
use wesl_tree::ModulePath;

/// The name that a mangler gives an item.
fn mangled(
    alloc: Global,
    naming: Naming,
    path: &ModulePath,
    item: &str,
) -> Result<String, AllocError> {
    let mut mangler = BundleMangler { naming };
    mangler.mangle(alloc, path, item).ok().ok_or(AllocError)
}

/// The name that a declaration prints as. The root's stay as they are unless it is mangled.
fn printed(
    alloc: Global,
    texts: &Texts,
    options: Options,
    is_root: bool,
    path: PathId,
    name: Option<NameId>,
) -> Result<String, AllocError> {
    let Some(name) = name else {
        return Ok(String::new(alloc));
    };
    let own = texts.name(name);
    match texts.module(path) {
        Some(module) if !is_root || options.mangle_root => {
            mangled(alloc, options.mangler, module, own)
        }
        _ => String::from_str(alloc, own),
    }
}

/// What is told of a declaration.
fn told(
    alloc: Global,
    world: &World,
    texts: &Texts,
    options: Options,
    path: PathId,
    name: Option<NameId>,
) -> Result<HeldDeclaration, AllocError>
    ensures { IfOk result (λ h. (h.path ≡ path) × (h.name ≡ name)) }
{
    let is_root = world.root() == Some(path);
    let printed = printed(alloc, texts, options, is_root, path, name)?;
    Ok(HeldDeclaration {
        path,
        name,
        printed,
    })
}

/// Adds the held declarations of a module.
fn add_held(
    alloc: Global,
    world: &World,
    texts: &Texts,
    options: Options,
    table: &Table,
    held: &mut Vec<HeldDeclaration>,
) -> Result<(), AllocError>
    ensures { OnOk result (AddsHeld world.now table.now held.old.items held.new.items) }
{
    let path = table.path();
    for declaration in table.declarations() {
        let name = declaration.name();
        if world.holds(path, name) {
            held.push(told(alloc, world, texts, options, path, name)?)?;
        }
    }
    Ok(())
}

/// The held declarations, in the order of the linked unit.
pub fn held_in(
    alloc: Global,
    world: &World,
    texts: &Texts,
    options: Options,
) -> Result<Vec<HeldDeclaration>, AllocError>
    ensures { IfOk result (λ held. All (IsHeldIn world.now) held.items) }
{
    let mut held = Vec::new(alloc);
    for path in &world.order {
        if let Some(table) = world.table(*path) {
            add_held(alloc, world, texts, options, table, &mut held)?;
        }
    }
    Ok(held)
}
