//! What an eager link takes of each module besides: the modules that it imports from, and all that it declares.
ghost use Rattle.std.specs.Prelude.{◌≡◌, ◌<◌, length, map, IfOk, OnOk, IfErr, Contains, true, []};
ghost use Rattle.wesl_link_symbols.specs.declared.ids.PathId.{PathId};
ghost use Rattle.wesl_tree_base.specs.declared.ids.NameId.{NameId};
ghost use Rattle.wesl_link_symbols.specs.declared.symbols.Symbol.{Symbol};
ghost use Rattle.wesl_link_reach.specs.World.{Entered, Reached};
ghost use Rattle.wesl_link_reach.specs.Asked.{Gains};
ghost use Rattle.wesl_link_reach.specs.Eager.{IsDeclaredAmong, with_named};
ghost use Rattle.wesl_link_reach.specs.Loading.{Grows, HasImported, HoldsDeclared, OfModuleAt, IsLoaded, world_of, task_at};
ghost use Rattle.wesl_link_reach.specs.OverLoader.{LoaderAdds, IsSoundOver, CanLoad, RefusesRequest};

use crate::error::LinkError;
use crate::load::load;
use crate::loader::Loader;
use crate::request::{Loaded, Request, table_at};
use std::alloc::{AllocError, Global};
use wesl_link_symbols::ids::{NameId, PathId};
use wesl_link_symbols::symbols::Symbol;
use wesl_link_symbols::table::Table;

/// The paths that a module imports from.
fn imported_paths(alloc: Global, table: &Table) -> Result<Vec<PathId>, AllocError>
    ensures { IfOk result (λ v. v.items ≡ map (λ i. i.path) table.now.imports) }
{
    table
        .imports()
        .iter()
        .map(|import| import.path)
        .collect(alloc)
}

/// Sees that the modules at entered paths are loaded.
fn enter_all<E, L: Loader<E>>(
    alloc: Global,
    request: &Request,
    loaded: &mut Loaded,
    loader: &mut L,
    paths: &[PathId],
) -> Result<(), LinkError<E>>
    requires sound { IsSoundOver L.Loader loader.old request.now loaded.old }
    requires entered { (p : PathId) → Contains paths.now p → Entered (world_of request.now loaded.old) (task_at request.now) p }
    requires can { (p : PathId) → Contains paths.now p → CanLoad L.Loader loader.old request.now loaded.old p }
    ensures sound { OnOk result (IsSoundOver L.Loader loader.new request.now loaded.new) }
    ensures grows { OnOk result (Grows loaded.old loaded.new) }
    ensures there { OnOk result ((p : PathId) → Contains paths.now p → IsLoaded request.now loaded.new p) }
    ensures refused { IfErr result (RefusesRequest L.Loader loader.new request.now) }
    ensures adds { LoaderAdds L.Loader loader.old loader.new }
{
    for path in paths {
        load(alloc, request, loaded, loader, *path)?;
    }
    Ok(())
}

/// Sees that the modules are loaded that the module at a place imports from.
pub fn enter_imports<E, L: Loader<E>>(
    alloc: Global,
    request: &Request,
    loaded: &mut Loaded,
    loader: &mut L,
    place: usize,
) -> Result<(), LinkError<E>>
    requires eager { request.now.is_eager ≡ true }
    requires sound { IsSoundOver L.Loader loader.old request.now loaded.old }
    requires within { place < length (world_of request.now loaded.old) }
    ensures sound { OnOk result (IsSoundOver L.Loader loader.new request.now loaded.new) }
    ensures grows { OnOk result (Grows loaded.old loaded.new) }
    ensures there { OnOk result (OfModuleAt (world_of request.now loaded.old) place (HasImported (world_of request.now loaded.new))) }
    ensures refused { IfErr result (RefusesRequest L.Loader loader.new request.now) }
    ensures adds { LoaderAdds L.Loader loader.old loader.new }
{
    let paths = imported_paths(alloc, table_at(request, loaded, place))?;
    enter_all(alloc, request, loaded, loader, &paths)?;
    Ok(())
}

/// Adds the symbol of a name at a path, where there is a name.
fn add_named(
    symbols: &mut Vec<Symbol<PathId, NameId>>,
    path: PathId,
    name: Option<NameId>,
) -> Result<(), AllocError>
    ensures { OnOk result (symbols.new.items ≡ with_named path name symbols.old.items) }
{
    match name {
        Some(name) => Ok(symbols.push(Symbol { path, name })?),
        None => Ok(()),
    }
}

/// The symbols that a module declares.
fn declared_symbols(alloc: Global, table: &Table) -> Result<Vec<Symbol<PathId, NameId>>, AllocError>
    ensures { IfOk result (λ v. Gains [] v.items (IsDeclaredAmong table.now table.now.declarations)) }
{
    let mut symbols = Vec::new(alloc);
    for declaration in table.declarations() {
        add_named(&mut symbols, table.path(), declaration.name())?;
    }
    Ok(symbols)
}

/// Puts reached symbols among those that are held.
fn hold_all<E, L: Loader<E>>(
    request: &Request,
    loaded: &mut Loaded,
    loader: &L,
    symbols: &[Symbol<PathId, NameId>],
) -> Result<(), LinkError<E>>
    requires sound { IsSoundOver L.Loader loader.now request.now loaded.old }
    requires reached { (s : Symbol PathId NameId) → Contains symbols.now s → Reached (world_of request.now loaded.old) (task_at request.now) s }
    requires placed { (s : Symbol PathId NameId) → Contains symbols.now s → IsLoaded request.now loaded.old s.path }
    ensures sound { OnOk result (IsSoundOver L.Loader loader.now request.now loaded.new) }
    ensures grows { OnOk result (Grows loaded.old loaded.new) }
    ensures held { OnOk result ((s : Symbol PathId NameId) → Contains symbols.now s → Contains loaded.new.symbols.keys s) }
    ensures refused { IfErr result (RefusesRequest L.Loader loader.now request.now) }
{
    for symbol in symbols {
        loaded.symbols.put(*symbol)?;
    }
    Ok(())
}

/// Puts all that the module at a place declares among the symbols that are held.
pub fn hold_declared<E, L: Loader<E>>(
    alloc: Global,
    request: &Request,
    loaded: &mut Loaded,
    loader: &L,
    place: usize,
) -> Result<(), LinkError<E>>
    requires eager { request.now.is_eager ≡ true }
    requires sound { IsSoundOver L.Loader loader.now request.now loaded.old }
    requires within { place < length (world_of request.now loaded.old) }
    ensures sound { OnOk result (IsSoundOver L.Loader loader.now request.now loaded.new) }
    ensures grows { OnOk result (Grows loaded.old loaded.new) }
    ensures held { OnOk result (OfModuleAt (world_of request.now loaded.old) place (HoldsDeclared loaded.new.symbols.keys)) }
    ensures refused { IfErr result (RefusesRequest L.Loader loader.now request.now) }
{
    let symbols = declared_symbols(alloc, table_at(request, loaded, place))?;
    hold_all(request, loaded, loader, &symbols)?;
    Ok(())
}
