//! All that is wrong in a world that is given.
ghost use Rattle.std.specs.Prelude.{IfOk};
ghost use Rattle.wesl_link_reach.specs.Laws.{IsClear};
ghost use Rattle.wesl_link_flaws.specs.Found.{AreFindings, task_from};

use crate::given::{Given, place_all};
use crate::keys;
use crate::search::Search;
use crate::told::Told;
use std::alloc::{AllocError, Global};
use std::collections::HashMap;
use wesl_link_symbols::ids::{NameId, PathId};
use wesl_link_symbols::symbols::Symbol;
use wesl_link_symbols::table::Table;
use wesl_link_trails::Ends;

/// What is found in a world, in the order in which it was found.
#[derive(Drop)]
pub struct Findings {
    /// The paths that are entered.
    pub entered: Vec<PathId>,
    /// The symbols that are reached.
    pub symbols: Vec<Symbol<PathId, NameId>>,
    /// All that is wrong.
    pub told: Vec<Told<PathId, NameId>>,
}

/// All that is wrong in a world of these modules, with who asks for each.
///
/// `root` is where the root stands, `kept` are the names of it that are kept, and `is_eager` says whether all that is
/// declared is held. Where no module stands at a path, each that asks there is told so. Refused for want of memory alone.
pub fn findings_in<'a>(
    alloc: Global,
    tables: &'a [Table],
    root: PathId,
    kept: &'a [NameId],
    is_eager: bool,
) -> Result<Findings, AllocError>
    requires { IsClear tables.now }
    ensures { IfOk result (AreFindings tables.now (task_from root kept.now is_eager)) }
{
    let mut given = Given {
        tables,
        places: HashMap::new(alloc),
        root,
        kept,
        is_eager,
    };
    place_all(&mut given.places, tables)?;
    let mut search = Search {
        entered: keys::none(alloc),
        symbols: keys::none(alloc),
        told: keys::none(alloc),
        answers: HashMap::new(alloc),
        ends: Ends::new(alloc),
    };
    search.run(alloc, &given)?;
    let Search {
        entered,
        symbols,
        told,
        answers: _,
        ends: _,
    } = search;
    Ok(Findings {
        entered: keys::into_list(entered),
        symbols: keys::into_list(symbols),
        told: keys::into_list(told),
    })
}
