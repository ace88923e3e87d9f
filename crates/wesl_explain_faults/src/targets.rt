//! What a name of a module may stand for.

use crate::conditions::condition_at;
use std::alloc::{AllocError, Global};
use wesl_explain_places::ReadModules;
use wesl_link_symbols::ids::{NameId, PathId};
use wesl_link_symbols::symbols::Symbol;
use wesl_link_symbols::table::Table;
use wesl_tree::Span;

// How many things that a name may stand for are told.
const MOST: usize = 64;

/// Something that a name may stand for.
#[derive(Drop)]
pub struct Target {
    pub symbol: Symbol<PathId, NameId>,
    /// The condition of its binder as it is written, where that is known.
    pub condition: Option<String>,
    /// Where its binder stands, the import or the declaration, where that is known.
    pub span: Option<Span>,
}

/// Adds a target, unless it is there.
fn add(targets: &mut Vec<Target>, target: Target) -> Result<(), AllocError> {
    for other in targets.as_slice() {
        if other.symbol == target.symbol {
            return Ok(());
        }
    }
    targets.push(target)?;
    Ok(())
}

/// Adds what an import aims at, unless there are many.
fn add_import(
    alloc: Global,
    targets: &mut Vec<Target>,
    read: &ReadModules,
    table: &Table,
    index: usize,
) -> Result<(), AllocError> {
    if targets.len() >= MOST {
        return Ok(());
    }
    let Some(import) = table.imports().get(index) else {
        return Ok(());
    };
    let path = table.path();
    let symbol = Symbol {
        path: import.path,
        name: import.item,
    };
    let target = Target {
        symbol,
        condition: condition_at(alloc, read.at(path), import.place)?,
        span: read.import_span(path, index),
    };
    add(targets, target)
}

/// Adds what the imports of a name in a module aim at, the last first.
fn add_imported(
    alloc: Global,
    targets: &mut Vec<Target>,
    read: &ReadModules,
    table: &Table,
    name: NameId,
) -> Result<(), AllocError> {
    let mut at = table.latest_import_of(name);
    'imports: while let Some(index) = at {
        add_import(alloc, targets, read, table, index)?;
        at = table.earlier_import_of(index, name);
    }
    Ok(())
}

/// Adds the symbol of a name that a module declares, with the place of the last of its declarations.
fn add_declared(
    alloc: Global,
    targets: &mut Vec<Target>,
    read: &ReadModules,
    table: &Table,
    name: NameId,
) -> Result<(), AllocError> {
    let path = table.path();
    let Some(index) = table.latest_of(Some(name)) else {
        return Ok(());
    };
    let Some(declaration) = table.declarations().get(index) else {
        return Ok(());
    };
    let target = Target {
        symbol: Symbol { path, name },
        condition: condition_at(alloc, read.at(path), declaration.place())?,
        span: read.declaration_span(path, index),
    };
    add(targets, target)
}

/// What a name may stand for in a module: what its imports aim at, in their order, and the symbol of its own declarations.
pub fn targets_of(
    alloc: Global,
    read: &ReadModules,
    table: &Table,
    name: NameId,
) -> Result<Vec<Target>, AllocError> {
    let mut targets = Vec::new(alloc);
    add_declared(alloc, &mut targets, read, table, name)?;
    add_imported(alloc, &mut targets, read, table, name)?;
    targets.reverse();
    Ok(targets)
}
