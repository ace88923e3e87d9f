//! Loading: each entered path takes a place, with a module or without, as long as there is room.
ghost use Rattle.std.specs.Prelude.{◌<◌, length, IfOk, OnOk, Contains};
ghost use Rattle.wesl_link_symbols.specs.declared.ids.PathId.{PathId};
ghost use Rattle.wesl_link_ahead.specs.Ahead.{IsAhead};
ghost use Rattle.wesl_link_reach.specs.World.{Entered};
ghost use Rattle.wesl_link_reach.specs.Loading.{GoesOn};
ghost use Rattle.wesl_link_reach.specs.OverLoader.{LoaderAdds};
ghost use Rattle.wesl_link_flaws.specs.Keys.{AreKeys};
ghost use Rattle.wesl_link_flaws.specs.Found.{AreFindings};
ghost use Rattle.wesl_link_faults.specs.Loading.{AreEntered, HasPlace, HavePlaces, IsLoadedOver, Moves, PutsAbsent, PutsTable, tables_in, task_wanted};

use std::alloc::{AllocError, Global};
use std::collections::HashMap;
use wesl_link_ahead::{Ahead, Linking};
use wesl_link_flaws::absence::Absence;
use wesl_link_flaws::keys::{self, Keys};
use wesl_link_flaws::world::{Findings, findings_in};
use wesl_link_reach::loader::{LoadError, Loader};
use wesl_link_symbols::ids::{NameId, PathId};
use wesl_link_symbols::keyed;
use wesl_link_symbols::table::Table;

/// What is linked: where the root stands, the names of it that are kept, whether all that is declared is held, and how many
/// paths may take a place.
#[derive(Drop)]
pub struct Wanted {
    pub root: PathId,
    pub kept: Vec<NameId>,
    pub is_eager: bool,
    pub limit: usize,
}

/// What is loaded so far.
#[derive(Drop)]
pub struct Loaded<E> {
    /// The modules, the root's first.
    pub tables: Vec<Table>,
    /// The paths that took a place, with a module or without.
    pub asked: Keys<PathId>,
    /// Why there are paths without a module.
    pub absences: Vec<Absence<E>>,
    /// Of each path that took a place without a module, the number of its absence.
    pub absent: HashMap<PathId, usize>,
}

/// Gives a path a place, with the module that was handed out at it.
fn put_table<E: Drop>(loaded: &mut Loaded<E>, path: PathId, table: Table) -> Result<(), AllocError>
    requires { AreKeys loaded.old.asked }
    ensures { OnOk result (PutsTable path table loaded.old loaded.new) }
{
    keys::put(&mut loaded.asked, path)?;
    loaded.tables.push(table)?;
    Ok(())
}

/// Gives a path a place without a module.
fn put_absent<E: Drop>(
    loaded: &mut Loaded<E>,
    path: PathId,
    absence: Absence<E>,
) -> Result<(), AllocError>
    requires { AreKeys loaded.old.asked }
    ensures { OnOk result (PutsAbsent path absence loaded.old loaded.new) }
{
    keys::put(&mut loaded.asked, path)?;
    keyed::put(&mut loaded.absent, path, loaded.absences.len())?;
    loaded.absences.push(absence)?;
    Ok(())
}

/// Asks the loader for the module at an entered path that has no place.
fn fetch<E: Drop, L: Loader<E>>(
    alloc: Global,
    wanted: &Wanted,
    loaded: &mut Loaded<E>,
    loader: &mut L,
    path: PathId,
) -> Result<(), AllocError>
    requires sound { IsLoadedOver L.Loader loader.old wanted.now loaded.old }
    requires entered { Entered (tables_in loaded.old) (task_wanted wanted.now) path }
    requires ready { L.ready loader.old path }
    requires fresh { Contains loaded.old.asked.list.items path → ⊥ }
    requires room { length loaded.old.asked.list.items < wanted.now.limit }
    ensures there { OnOk result (Contains loaded.new.asked.list.items path) }
    ensures sound { OnOk result (IsLoadedOver L.Loader loader.new wanted.now loaded.new) }
    ensures moves { OnOk result (Moves loaded.old loaded.new) }
    ensures adds { LoaderAdds L.Loader loader.old loader.new }
{
    match loader.load(alloc, path) {
        Ok(table) => {
            if table.is_crowded() {
                return Ok(put_absent(loaded, path, Absence::Crowded)?);
            }
            Ok(put_table(loaded, path, table)?)
        }
        Err(LoadError::Refused(error)) => {
            Ok(put_absent(loaded, path, Absence::TurnedAway(error))?)
        }
        Err(LoadError::Memory) => Err(AllocError),
    }
}

/// Gives an entered path a place, unless it has one or there is no room.
fn ask_new<E: Drop, L: Loader<E>>(
    alloc: Global,
    wanted: &Wanted,
    loaded: &mut Loaded<E>,
    loader: &mut L,
    path: PathId,
) -> Result<(), AllocError>
    requires sound { IsLoadedOver L.Loader loader.old wanted.now loaded.old }
    requires entered { Entered (tables_in loaded.old) (task_wanted wanted.now) path }
    ensures there { OnOk result (HasPlace wanted.now loaded.new path) }
    ensures sound { OnOk result (IsLoadedOver L.Loader loader.new wanted.now loaded.new) }
    ensures moves { OnOk result (Moves loaded.old loaded.new) }
    ensures adds { LoaderAdds L.Loader loader.old loader.new }
{
    if keys::has(&loaded.asked, path) {
        return Ok(());
    }
    if loaded.asked.list.len() >= wanted.limit {
        return Ok(());
    }
    fetch(alloc, wanted, loaded, loader, path)?;
    Ok(())
}

/// Gives entered paths places, as long as there is room.
fn ask_all<E: Drop, L: Loader<E>>(
    alloc: Global,
    wanted: &Wanted,
    loaded: &mut Loaded<E>,
    loader: &mut L,
    paths: &[PathId],
) -> Result<(), AllocError>
    requires sound { IsLoadedOver L.Loader loader.old wanted.now loaded.old }
    requires entered { (p : PathId) → Contains paths.now p → Entered (tables_in loaded.old) (task_wanted wanted.now) p }
    ensures there { OnOk result ((p : PathId) → Contains paths.now p → HasPlace wanted.now loaded.new p) }
    ensures sound { OnOk result (IsLoadedOver L.Loader loader.new wanted.now loaded.new) }
    ensures moves { OnOk result (Moves loaded.old loaded.new) }
    ensures adds { LoaderAdds L.Loader loader.old loader.new }
{
    for path in paths {
        ask_new(alloc, wanted, loaded, loader, *path)?;
    }
    Ok(())
}

/// What is found of a link before any module is gone through: the root's path, and what the kept names lead to.
fn begin_ahead(alloc: Global, wanted: &Wanted, tables: &[Table]) -> Result<Ahead, AllocError>
    ensures { IfOk result (IsAhead tables.now (task_wanted wanted.now)) }
{
    let mut ahead = Ahead::new(alloc);
    let linking = Linking {
        tables,
        root: wanted.root,
        kept: &wanted.kept,
        is_eager: wanted.is_eager,
    };
    ahead.begin(&linking)?;
    Ok(ahead)
}

/// Goes through the modules that were not gone through before, and tells the entered paths that were not told before.
fn go_ahead(
    alloc: Global,
    wanted: &Wanted,
    tables: &[Table],
    ahead: &mut Ahead,
) -> Result<Vec<PathId>, AllocError>
    requires ahead { IsAhead tables.now (task_wanted wanted.now) ahead.old }
    requires modules { AreEntered tables.now (task_wanted wanted.now) }
    ensures entered { IfOk result (λ ps. (p : PathId) → Contains ps.items p → Entered tables.now (task_wanted wanted.now) p) }
    ensures ahead { OnOk result (IsAhead tables.now (task_wanted wanted.now) ahead.new) }
{
    let linking = Linking {
        tables,
        root: wanted.root,
        kept: &wanted.kept,
        is_eager: wanted.is_eager,
    };
    let paths = ahead.go_on(alloc, &linking)?;
    Ok(paths)
}

/// Loads modules as far as they lead from one to the next, each of which is gone through once. What is loaded so is entered.
fn load_ahead<E: Drop, L: Loader<E>>(
    alloc: Global,
    wanted: &Wanted,
    loaded: &mut Loaded<E>,
    loader: &mut L,
) -> Result<(), AllocError>
    requires sound { IsLoadedOver L.Loader loader.old wanted.now loaded.old }
    ensures sound { OnOk result (IsLoadedOver L.Loader loader.new wanted.now loaded.new) }
    ensures on { OnOk result (GoesOn (tables_in loaded.old) (tables_in loaded.new)) }
    ensures adds { LoaderAdds L.Loader loader.old loader.new }
{
    let mut ahead = begin_ahead(alloc, wanted, &loaded.tables)?;
    for _round in 0..usize::MAX {
        let before = loaded.asked.list.len();
        let paths = go_ahead(alloc, wanted, &loaded.tables, &mut ahead)?;
        ask_all(alloc, wanted, loaded, loader, &paths)?;
        if loaded.asked.list.len() == before {
            return Ok(());
        }
    }
    Ok(())
}

/// Loads modules until each path that is entered in their world has a place, or there is no room, and finds all that is wrong
/// in that world.
pub fn load_all<E: Drop, L: Loader<E>>(
    alloc: Global,
    wanted: &Wanted,
    loaded: &mut Loaded<E>,
    loader: &mut L,
) -> Result<Findings, AllocError>
    requires sound { IsLoadedOver L.Loader loader.old wanted.now loaded.old }
    ensures sound { OnOk result (IsLoadedOver L.Loader loader.new wanted.now loaded.new) }
    ensures found { IfOk result (AreFindings (tables_in loaded.new) (task_wanted wanted.now)) }
    ensures there { IfOk result (λ r. HavePlaces wanted.now loaded.new r.entered.items) }
    ensures on { OnOk result (GoesOn (tables_in loaded.old) (tables_in loaded.new)) }
    ensures adds { LoaderAdds L.Loader loader.old loader.new }
{
    load_ahead(alloc, wanted, loaded, loader)?;
    'rounds: loop {
        let before = loaded.asked.list.len();
        let found = findings_in(
            alloc,
            &loaded.tables,
            wanted.root,
            &wanted.kept,
            wanted.is_eager,
        )?;
        ask_all(alloc, wanted, loaded, loader, &found.entered)?;
        if loaded.asked.list.len() == before {
            return Ok(found);
        }
    }
}
