//! Loading the modules of entered paths.
ghost use Rattle.std.specs.Prelude.{◌≡◌, ◌<◌, length, IfSome, IfNone, OnOk, IfErr};
ghost use Rattle.wesl_link_symbols.specs.declared.ids.PathId.{PathId};
ghost use Rattle.wesl_tree_base.specs.declared.ids.NameId.{NameId};
ghost use Rattle.wesl_link_symbols.specs.Tables as tables;
ghost use Rattle.wesl_link_reach.specs.World.{IsAt, Entered};
ghost use Rattle.wesl_link_reach.specs.Loader.{IsReady};
ghost use Rattle.wesl_link_reach.specs.Loading.{Grows, IsLoaded, world_of, task_at};
ghost use Rattle.wesl_link_reach.specs.OverLoader.{LoaderAdds, IsSoundOver, CanLoad, RefusesRequest};

use crate::error::LinkError;
use crate::loader::{LoadError, Loader};
use crate::names;
use crate::request::{Loaded, Request, loaded_table};
use std::alloc::Global;
use wesl_link_symbols::ids::PathId;
use wesl_link_symbols::keyed;
use wesl_link_symbols::table::Table;

/// Adds a module that was handed out at an entered path where none is.
fn add<E, L: Loader<E>>(
    request: &Request,
    loaded: &mut Loaded,
    loader: &L,
    table: Table,
) -> Result<(), LinkError<E>>
    requires sound { IsSoundOver L.Loader loader.now request.now loaded.old }
    requires handed { L.hands loader.now table.path table }
    requires ready_paths { IsReady (L.ready loader.now) table }
    requires entered { Entered (world_of request.now loaded.old) (task_at request.now) table.path }
    requires absent { (t : tables.Table PathId NameId) → IsAt (world_of request.now loaded.old) table.path t → ⊥ }
    requires room { length (world_of request.now loaded.old) < request.now.max_modules }
    ensures sound { OnOk result (IsSoundOver L.Loader loader.now request.now loaded.new) }
    ensures grows { OnOk result (Grows loaded.old loaded.new) }
    ensures there { OnOk result (IsLoaded request.now loaded.new table.path) }
    ensures refused { IfErr result (RefusesRequest L.Loader loader.now request.now) }
{
    if table.is_crowded() {
        return Err(LinkError::TooManyFlags(table.path()));
    }
    if let Some(name) = names::clash(&table) {
        return Err(LinkError::DuplicateSymbol(table.path(), name));
    }
    keyed::put(&mut loaded.places, table.path(), loaded.others.len())?;
    loaded.others.push(table)?;
    Ok(())
}

/// Asks the loader for the module at an entered path where none is, and adds it.
fn fetch<E, L: Loader<E>>(
    alloc: Global,
    request: &Request,
    loaded: &mut Loaded,
    loader: &mut L,
    path: PathId,
) -> Result<(), LinkError<E>>
    requires sound { IsSoundOver L.Loader loader.old request.now loaded.old }
    requires entered { Entered (world_of request.now loaded.old) (task_at request.now) path }
    requires ready_path { L.ready loader.old path }
    requires absent { (t : tables.Table PathId NameId) → IsAt (world_of request.now loaded.old) path t → ⊥ }
    ensures sound { OnOk result (IsSoundOver L.Loader loader.new request.now loaded.new) }
    ensures grows { OnOk result (Grows loaded.old loaded.new) }
    ensures there { OnOk result (IsLoaded request.now loaded.new path) }
    ensures refused { IfErr result (RefusesRequest L.Loader loader.new request.now) }
    ensures adds { LoaderAdds L.Loader loader.old loader.new }
{
    if loaded.others.len() >= request.max_modules - 1 {
        return Err(LinkError::ModuleLimit(request.max_modules));
    }
    match loader.load(alloc, path) {
        Ok(table) => add(request, loaded, loader, table),
        Err(LoadError::Refused(error)) => Err(LinkError::Refused(error)),
        Err(LoadError::Memory) => Err(LinkError::Memory),
    }
}

/// Sees that the module at an entered path is loaded.
pub fn load<E, L: Loader<E>>(
    alloc: Global,
    request: &Request,
    loaded: &mut Loaded,
    loader: &mut L,
    path: PathId,
) -> Result<(), LinkError<E>>
    requires sound { IsSoundOver L.Loader loader.old request.now loaded.old }
    requires entered { Entered (world_of request.now loaded.old) (task_at request.now) path }
    requires can { CanLoad L.Loader loader.old request.now loaded.old path }
    ensures sound { OnOk result (IsSoundOver L.Loader loader.new request.now loaded.new) }
    ensures grows { OnOk result (Grows loaded.old loaded.new) }
    ensures there { OnOk result (IsLoaded request.now loaded.new path) }
    ensures refused { IfErr result (RefusesRequest L.Loader loader.new request.now) }
    ensures adds { LoaderAdds L.Loader loader.old loader.new }
{
    match loaded_table(request, loaded, path) {
        Some(_) => Ok(()),
        None => fetch(alloc, request, loaded, loader, path),
    }
}
