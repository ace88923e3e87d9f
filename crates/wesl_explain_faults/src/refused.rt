//! A refused link: its faults with all that is told of each, and what was held until then.
ghost use Rattle.std.specs.Prelude.{◌≡◌, map, IfOk};
ghost use Rattle.wesl_link_reach.specs.Laws.{IsClear};
ghost use Rattle.wesl_link_flaws.specs.Searching.{IsReady};
ghost use Rattle.wesl_explain_faults.specs.Told.{AreTold, fault_view, link_view};

use crate::cures::{FaultCure, cures_of};
use crate::faults::{FaultAt, Wrong, faults_at};
use crate::held::{HeldNodes, held_nodes};
use crate::names::near_missing;
use crate::targets::{Target, targets_of};
use crate::uses::{Use, look_up_of, uses_of};
use std::alloc::{AllocError, Global};
use std::collections::HashMap;
use wesl_explain_names::{NearNames, Texts};
use wesl_explain_places::ReadModules;
use wesl_explain_ways::{Rings, Way, no_way};
use wesl_link_faults::open::Finding;
use wesl_link_flaws::asker::Asker;
use wesl_link_flaws::given::{Given, place_all};
use wesl_link_flaws::told::Flaw;
use wesl_link_symbols::ids::{NameId, PathId};
use wesl_link_symbols::symbols::Symbol;
use wesl_link_symbols::table::Table;

/// A fault of a link, with all that is told of it.
#[derive(Drop)]
pub struct LinkFault {
    pub wrong: Wrong,
    /// The number of the absence, where no module is at the path and it took a place.
    pub absence: Option<usize>,
    /// Who asks.
    pub uses: Vec<Use>,
    /// What the first that asks is led to: the names of modules that it asks for, one after the other.
    pub way: Way,
    /// A name that is near.
    pub near: Option<Symbol<PathId, NameId>>,
    /// What the name may stand for.
    pub targets: Vec<Target>,
    /// What helps.
    pub cures: &'static [FaultCure],
}

/// What was loaded and held until a link was refused.
#[derive(Drop)]
pub struct HeldUntil {
    /// The root's path.
    pub root: PathId,
    /// What was held, each with who asked for it first.
    pub held: HeldNodes,
    /// The modules that were loaded, in their order.
    pub modules: Vec<PathId>,
}

/// A refused link.
#[derive(Drop)]
pub struct RefusedLink {
    /// The faults, each once, in the order of its first asker.
    pub faults: Vec<LinkFault>,
    /// What was loaded and held until then.
    pub until: HeldUntil,
}

/// The way of the first that asks: nothing where it has no look-up.
fn first_way(
    alloc: Global,
    given: &Given<'_>,
    rings: &mut Rings,
    askers: &[Asker<PathId, NameId>],
) -> Result<Way, AllocError>
    requires ready { IsReady given.now }
{
    let Some(first) = askers.first() else {
        return Ok(no_way(alloc));
    };
    match look_up_of(given, *first) {
        Some(start) => rings.way_of(alloc, given, start),
        None => Ok(no_way(alloc)),
    }
}

/// What was found while faults were told: near names, and rings.
#[derive(Drop)]
struct Seen {
    near: NearNames,
    rings: Rings,
}

/// The name of a module that is nearest to one that it lacks: none where the module imports the name in a ring.
fn near_of(
    alloc: Global,
    given: &Given<'_>,
    texts: &Texts,
    near: &mut NearNames,
    wrong: Wrong,
    is_ring: bool,
) -> Result<Option<Symbol<PathId, NameId>>, AllocError>
    requires ready { IsReady given.now }
{
    match wrong.flaw {
        Flaw::Lacking(name) if !is_ring => {
            near_missing(alloc, given, texts, near, wrong.at, name)
        }
        _ => Ok(None),
    }
}

/// The name that may stand for several things, or for what is hidden.
fn targeted(flaw: Flaw<NameId>) -> Option<NameId> {
    match flaw {
        Flaw::Clash(name) | Flaw::Hidden(name) | Flaw::Unsure(name) => Some(name),
        Flaw::NoModule | Flaw::Lacking(_) => None,
    }
}

/// What the name of a fault may stand for where it stands.
fn targets_at(
    alloc: Global,
    given: &Given<'_>,
    read: &ReadModules,
    wrong: Wrong,
) -> Result<Vec<Target>, AllocError>
    requires ready { IsReady given.now }
{
    let Some(name) = targeted(wrong.flaw) else {
        return Ok(Vec::new(alloc));
    };
    match given.table(wrong.at) {
        Some(table) => targets_of(alloc, read, table, name),
        None => Ok(Vec::new(alloc)),
    }
}

/// All that is told of a fault.
fn told_of(
    alloc: Global,
    given: &Given<'_>,
    texts: &Texts,
    read: &ReadModules,
    held: &HeldNodes,
    seen: &mut Seen,
    fault: &FaultAt,
) -> Result<LinkFault, AllocError>
    requires ready { IsReady given.now }
    ensures { IfOk result (λ told. link_view told ≡ fault_view fault.now) }
{
    let uses = uses_of(alloc, given, read, held, &fault.askers)?;
    let way = first_way(alloc, given, &mut seen.rings, &fault.askers)?;
    let is_ring = !way.ring.is_empty();
    let near = near_of(alloc, given, texts, &mut seen.near, fault.wrong, is_ring)?;
    let targets = targets_at(alloc, given, read, fault.wrong)?;
    Ok(LinkFault {
        wrong: fault.wrong,
        absence: fault.absence,
        uses,
        way,
        near,
        targets,
        cures: cures_of(fault.wrong.flaw),
    })
}

/// All that is told of the faults of a link.
fn told_all(
    alloc: Global,
    given: &Given<'_>,
    texts: &Texts,
    read: &ReadModules,
    held: &HeldNodes,
    found: &[FaultAt],
) -> Result<Vec<LinkFault>, AllocError>
    requires ready { IsReady given.now }
    ensures { IfOk result (λ told. map link_view told.items ≡ map fault_view found.now) }
{
    let mut seen = Seen {
        near: NearNames::new(),
        rings: Rings::new(alloc),
    };
    let mut faults = Vec::with_capacity(alloc, found.len())?;
    for fault in found {
        faults.push(told_of(alloc, given, texts, read, held, &mut seen, fault)?)?;
    }
    Ok(faults)
}

/// The paths of modules.
fn paths_of(alloc: Global, tables: &[Table]) -> Result<Vec<PathId>, AllocError> {
    let mut paths = Vec::with_capacity(alloc, tables.len())?;
    for table in tables {
        paths.push(table.path())?;
    }
    Ok(paths)
}

/// All that is told of a link over these modules of which this was found: each fault once, with just those that ask for it.
///
/// `root` is where the root stands, `kept` are the names of it that are kept, and `is_eager` says whether all that is declared
/// is held. Refused for want of memory alone.
pub fn refused_link<'a>(
    alloc: Global,
    tables: &'a [Table],
    told: &[Finding],
    root: PathId,
    kept: &'a [NameId],
    is_eager: bool,
    texts: &Texts,
    read: &ReadModules,
) -> Result<RefusedLink, AllocError>
    requires clear { IsClear tables.now }
    ensures { IfOk result (λ link. AreTold told.now link.faults.items) }
{
    let mut given = Given {
        tables,
        places: HashMap::new(alloc),
        root,
        kept,
        is_eager,
    };
    place_all(&mut given.places, tables)?;
    let held = held_nodes(alloc, &given)?;
    let found = faults_at(alloc, told)?;
    let faults = told_all(alloc, &given, texts, read, &held, &found)?;
    let modules = paths_of(alloc, tables)?;
    Ok(RefusedLink {
        faults,
        until: HeldUntil {
            root,
            held,
            modules,
        },
    })
}
