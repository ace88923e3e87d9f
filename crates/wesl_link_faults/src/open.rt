//! All faults of a link at once, over a loader.
ghost use Rattle.std.specs.Prelude.{◌≡◌, map, IfOk, IfErr, OnOk};
ghost use Rattle.wesl_link_reach.specs.Linking.{task_of};
ghost use Rattle.wesl_link_reach.specs.Loader.{IsReady};
ghost use Rattle.wesl_link_reach.specs.OverLoader.{LoaderAdds};
ghost use Rattle.wesl_link_flaws.specs.Keys.{AreKeys};
ghost use Rattle.wesl_link_faults.specs.Opening.{AreBeyond, AreRight, HasPassed, IsBegun, IsFaultOf, IsFinished, IsOpenedOver, IsRefusal, told_of};
ghost use Rattle.wesl_link_flaws.specs.declared.told.Flaw.TheVariants.{NoModule};

use crate::loading::{Loaded, Wanted, load_all};
use std::alloc::{AllocError, Global};
use std::collections::HashMap;
use wesl_link_flaws::absence::Absence;
use wesl_link_flaws::asker::Asker;
use wesl_link_flaws::keys::{self, Keys};
use wesl_link_flaws::told::{Flaw, Told};
use wesl_link_flaws::world::Findings;
use wesl_link_reach::loader::Loader;
use wesl_link_symbols::ids::{NameId, PathId};
use wesl_link_symbols::keyed;
use wesl_link_symbols::table::Table;

/// What is wrong in a link.
#[derive(Drop)]
pub enum Fault {
    /// Two binders of the name have different targets, and are there at once.
    Duplicate(NameId),
    /// No module stands there, for the absence with that number.
    Absent(usize),
    /// The module lacks the name, or a look-up comes to it a second time.
    Missing(NameId),
    /// The module imports the name and does not publish it.
    Private(NameId),
    /// The name stands for two things.
    Ambiguous(NameId),
    /// It is one path more than may take a place.
    TooMany,
}

/// What is wrong, who asks, and the path at which it is wrong.
#[derive(Drop)]
pub struct Finding {
    pub fault: Fault,
    pub asker: Asker<PathId, NameId>,
    pub at: PathId,
}

/// What is found when a link goes on behind each fault.
#[derive(Drop)]
pub struct Opened<E> {
    /// The modules, the root's first, and then by loading.
    pub tables: Vec<Table>,
    /// The paths that took a place, with a module or without.
    pub asked: Vec<PathId>,
    /// Why there are paths without a module.
    pub absences: Vec<Absence<E>>,
    /// All faults, each with who asks.
    pub told: Vec<Finding>,
    /// The entered paths for which there was no room.
    pub beyond: Vec<PathId>,
}

/// Why there is no root to begin with.
#[derive(Drop)]
pub enum OpenError {
    /// No module may be loaded.
    NoRoom,
    /// A name of the root has several targets, and its conditions name more than 16 flags.
    CrowdedRoot,
    /// Memory was short.
    Memory,
}

impl From<AllocError> for OpenError {
    ghost use Rattle.wesl_link_faults.specs.declared.open.OpenError.TheVariants.{Memory};
    ghost use Rattle.std.specs.Prelude.{◌≡◌};

    ghost from_gives = { λ _ error. error ≡ Memory };

    fn from(_refused: AllocError) -> OpenError {
        OpenError::Memory
    }
}

/// The fault of a path where no module is.
fn absent_fault(absent: &HashMap<PathId, usize>, path: PathId) -> Fault
    ensures { IsFaultOf absent.now.entries path NoModule result }
{
    match keyed::value_at(absent, path) {
        Some(number) => Fault::Absent(number),
        None => Fault::TooMany,
    }
}

/// The fault that is told.
fn fault_of(absent: &HashMap<PathId, usize>, told: Told<PathId, NameId>) -> Fault
    ensures { IsFaultOf absent.now.entries told.at told.flaw result }
{
    match told.flaw {
        Flaw::Clash(name) => Fault::Duplicate(name),
        Flaw::NoModule => absent_fault(absent, told.at),
        Flaw::Lacking(name) => Fault::Missing(name),
        Flaw::Hidden(name) => Fault::Private(name),
        Flaw::Unsure(name) => Fault::Ambiguous(name),
    }
}

/// The findings of what is told.
fn name_all(
    alloc: Global,
    absent: &HashMap<PathId, usize>,
    told: &[Told<PathId, NameId>],
) -> Result<Vec<Finding>, AllocError>
    ensures same { IfOk result (λ v. map told_of v.items ≡ told.now) }
    ensures right { IfOk result (λ v. AreRight absent.now.entries v.items) }
{
    let mut named = Vec::new(alloc);
    for found in told {
        named.push(Finding {
            fault: fault_of(absent, *found),
            asker: found.asker,
            at: found.at,
        })?;
    }
    Ok(named)
}

/// Adds a path to those beyond, unless it took a place.
fn pass(asked: &Keys<PathId>, beyond: &mut Vec<PathId>, path: PathId) -> Result<(), AllocError>
    requires { AreKeys asked.now }
    ensures { OnOk result (HasPassed asked.now.list.items path beyond.old.items beyond.new.items) }
{
    if keys::has(asked, path) {
        return Ok(());
    }
    beyond.push(path)?;
    Ok(())
}

/// The entered paths that took no place.
fn beyond_of(
    alloc: Global,
    asked: &Keys<PathId>,
    entered: &[PathId],
) -> Result<Vec<PathId>, AllocError>
    requires { AreKeys asked.now }
    ensures { IfOk result (λ v. AreBeyond asked.now.list.items entered.now v.items) }
{
    let mut beyond = Vec::new(alloc);
    for path in entered {
        pass(asked, &mut beyond, *path)?;
    }
    Ok(beyond)
}

/// The root alone.
fn begin<E: Drop>(alloc: Global, root: Table) -> Result<Loaded<E>, AllocError>
    ensures { IfOk result (IsBegun root) }
{
    let mut asked = keys::none(alloc);
    keys::put(&mut asked, root.path())?;
    let mut tables = Vec::new(alloc);
    tables.push(root)?;
    Ok(Loaded {
        tables,
        asked,
        absences: Vec::new(alloc),
        absent: HashMap::new(alloc),
    })
}

/// What is found, of what is loaded.
fn finish<E: Drop>(
    alloc: Global,
    loaded: Loaded<E>,
    found: &Findings,
) -> Result<Opened<E>, AllocError>
    requires { AreKeys loaded.asked }
    ensures { IfOk result (IsFinished loaded found.now) }
{
    let beyond = beyond_of(alloc, &loaded.asked, &found.entered)?;
    let told = name_all(alloc, &loaded.absent, &found.told)?;
    let Loaded {
        tables,
        asked,
        absences,
        absent: _,
    } = loaded;
    Ok(Opened {
        tables,
        asked: keys::into_list(asked),
        absences,
        told,
        beyond,
    })
}

/// All faults of a link at once, each with who asks, where `loader` hands out each module but the root.
///
/// It goes on behind each fault: a path that the loader refuses, or at which a module with a split name and more than 16 flags
/// stands, is left out, and each that asks there is told so. No more than `max_modules` paths take a place, the root counted,
/// and no path beyond is asked for. Refused for want of memory, or where there is no root to begin with.
pub fn open_table<E: Drop, L: Loader<E>>(
    alloc: Global,
    root: Table,
    kept: Vec<NameId>,
    is_eager: bool,
    loader: &mut L,
    max_modules: usize,
) -> Result<Opened<E>, OpenError>
    requires { IsReady (L.ready loader.old) root }
    ensures opened { IfOk result (IsOpenedOver L.Loader loader.new root (task_of root kept.items is_eager) max_modules) }
    ensures refused { IfErr result (IsRefusal root max_modules) }
    ensures adds { LoaderAdds L.Loader loader.old loader.new }
{
    if max_modules == 0 {
        return Err(OpenError::NoRoom);
    }
    if root.is_crowded() {
        return Err(OpenError::CrowdedRoot);
    }
    let wanted = Wanted {
        root: root.path(),
        kept,
        is_eager,
        limit: max_modules,
    };
    let mut loaded = begin(alloc, root)?;
    let found = load_all(alloc, &wanted, &mut loaded, loader)?;
    let opened = finish(alloc, loaded, &found)?;
    Ok(opened)
}
