//! What is asked for in a link, and the imports that nothing uses.

use crate::explanation::UnusedImport;
use crate::world::World;
use std::alloc::{AllocError, Global};
use wesl_explain_names::{Below, Texts};
use wesl_explain_ways::Asked;
use wesl_link_symbols::symbols::Symbol;
use wesl_link_symbols::table::Table;

/// Puts what the held declarations of a module ask for, or all that it has.
fn put_declared(
    asked: &mut Asked,
    world: &World,
    table: &Table,
    is_whole: bool,
) -> Result<(), AllocError> {
    for declaration in table.declarations() {
        if is_whole || world.holds(table.path(), declaration.name()) {
            asked.put_references(declaration)?;
        }
    }
    Ok(())
}

/// What the kept names and the held declarations ask for, from outside a module, and what is asked for in turn.
fn asked_in(alloc: Global, world: &World) -> Result<Asked, AllocError> {
    let mut asked = Asked::new(alloc);
    if let Some(root) = world.root() {
        for name in &world.kept {
            asked.put(root, *name)?;
        }
    }
    for table in world.linked.tables() {
        put_declared(&mut asked, world, table, false)?;
    }
    Ok(asked)
}

/// Goes on from a name to what its module imports it from, so far as modules do.
fn follow(world: &World, asked: &mut Asked) -> Result<(), AllocError> {
    for place in 0..usize::MAX {
        let Some(symbol) = asked.found.get(place) else {
            return Ok(());
        };
        let Symbol { path, name } = *symbol;
        if let Some(table) = world.table(path) {
            asked.put_targets(table, name)?;
        }
    }
    Ok(())
}

/// Adds the imports of a module that nothing uses: neither a held declaration of it, nor a look-up of their name from elsewhere.
fn add_unused(
    alloc: Global,
    world: &World,
    texts: &Texts,
    all: &Asked,
    table: &Table,
    unused: &mut Vec<UnusedImport>,
) -> Result<(), AllocError> {
    let mut own = Asked::new(alloc);
    put_declared(&mut own, world, table, false)?;
    let mut own = Below::of(alloc, texts, &own.found)?;
    let mut whole = Asked::new(alloc);
    put_declared(&mut whole, world, table, true)?;
    let mut whole = Below::of(alloc, texts, &whole.found)?;
    for import in table.imports() {
        if !all.has(table.path(), import.bound) && !own.leads_to(texts, import)? {
            unused.push(UnusedImport {
                path: table.path(),
                bound: import.bound,
                from: import.path,
                item: import.item,
                is_used_unheld: whole.leads_to(texts, import)?,
            })?;
        }
    }
    Ok(())
}

/// The imports of loaded modules that nothing uses.
pub fn unused_imports(
    alloc: Global,
    world: &World,
    texts: &Texts,
) -> Result<Vec<UnusedImport>, AllocError> {
    let mut all = asked_in(alloc, world)?;
    follow(world, &mut all)?;
    let mut unused = Vec::new(alloc);
    for path in &world.order {
        if let Some(table) = world.table(*path) {
            add_unused(alloc, world, texts, &all, table, &mut unused)?;
        }
    }
    Ok(unused)
}
