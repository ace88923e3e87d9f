//! The identifiers of a module, and what another handler makes of the same walk.
ghost use Rattle.std.specs.Prelude.{◌≡◌, ◌<◌, IfOk, length, map, true};
ghost use Rattle.std.specs.List.{All};
ghost use Rattle.wesl_tree_names.specs.Path.{path_view};
ghost use Rattle.wesl_tree_syntax.specs.Tree.{forest_below};
ghost use Rattle.wesl_tree_syntax.specs.Unit.{trees_of, forest_of_unit};
ghost use Rattle.wesl_tree.specs.Translation.{unit_view};
ghost use Rattle.wesl_scope_occurrences.specs.Occurrences.{occurrences};
ghost use Rattle.wesl_scope_occurrences.specs.Identified.{identified};
ghost use Rattle.wesl_scope_occurrences.specs.Pieces.{starts};
ghost use Rattle.wesl_scope_occurrences.specs.Ways.{AreNested};
ghost use Rattle.wesl_scope_occurrences.specs.Outer.{outers};
ghost use Rattle.wesl_scope_occurrences.specs.Events.{events, paths_met};

use crate::collector::Collector;
use crate::handler::Handler;
use crate::here::Here;
use crate::occurrence::Standing;
use crate::paths::with_paths;
use crate::unit::walk_unit;
use crate::whole::{Identifiers, room_for};
use std::alloc::{AllocError, Global};
use wesl_tree::{Ident, ModulePath, TranslationUnit};

/// The identifiers that a walk has met so far, and another handler that was told what it met.
#[derive(Drop)]
struct Beside<'a, H> {
    /// the identifiers
    pub collector: Collector<'a>,
    /// the other handler
    pub other: H,
}

impl<'a, H> Beside<'a, H> {
    /// Both of them.
    fn into_parts(self) -> (Collector<'a>, H)
        ensures collector { result.0 ≡ self.entry.collector }
        ensures other { result.1 ≡ self.entry.other }
    {
        let Beside { collector, other } = self;
        (collector, other)
    }
}

impl<'a, H: Handler> Handler for Beside<'a, H> {
    ghost use Rattle.wesl_scope_occurrences.specs.Both.{TellsBoth, both_none, both_more};

    ghost after = { TellsBoth H.after };

    fn begin(&mut self) {
        self.collector.begin();
        self.other.begin();
    }

    fn meet(&mut self, here: &Here, standing: Standing<'_>, ident: Ident) {
        self.collector.meet(here, standing, ident);
        self.other.meet(here, standing, ident);
    }

    fn open(&mut self) {
        self.collector.open();
        self.other.open();
    }

    fn close(&mut self) {
        self.collector.close();
        self.other.close();
    }

    fn end(&mut self, here: &Here, ident: Ident) {
        self.collector.end(here, ident);
        self.other.end(here, ident);
    }

    ghost none = { both_none H.after H.none };

    ghost more = { both_more H.after H.more };
}

/// The identifiers of a module, and a handler that was told what the walk over it met.
#[derive(Drop)]
pub struct FoundBeside<'a, H> {
    /// the identifiers, and the blocks
    pub found: Identifiers<'a>,
    /// the paths of the references that have one, in document order
    pub paths: Vec<&'a ModulePath>,
    /// the handler
    pub handler: H,
}

/// The identifiers of a module as `occurrences` finds them, and in the same walk what a handler makes of what the walk
/// meets. Refused for want of memory alone.
pub fn occurrences_beside<'a, H: Handler + Drop>(
    alloc: Global,
    unit: &'a TranslationUnit,
    handler: H,
) -> Result<FoundBeside<'a, H>, AllocError>
    ensures all { IfOk result (λ r. identified r.found ≡ occurrences (trees_of (unit_view unit.now))) }
    ensures blocks { IfOk result (λ r. All (λ o. o.block < length r.found.outer.items) r.found.all.items) }
    ensures nested { IfOk result (λ r. AreNested r.found.outer.items) }
    ensures outer { IfOk result (λ r. r.found.outer.items ≡ outers (trees_of (unit_view unit.now))) }
    ensures starts { IfOk result (λ r. r.found.starts.items ≡ starts (trees_of (unit_view unit.now))) }
    ensures names { IfOk result (λ r. All (λ o. o.ident.0 < length (unit_view unit.now).names) r.found.all.items) }
    ensures named { IfOk result (λ r. forest_below (length (unit_view unit.now).names) (forest_of_unit (trees_of (unit_view unit.now))) ≡ true) }
    ensures paths { IfOk result (λ r. map (λ p. path_view p.now) r.paths.items ≡ paths_met (events (trees_of (unit_view unit.now)))) }
    ensures told { IfOk result (λ r. H.after (events (trees_of (unit_view unit.now))) handler r.handler) }
{
    let beside = Beside {
        collector: Collector::new(alloc, room_for(unit)),
        other: handler,
    };
    let walked = walk_unit(alloc, unit, beside)?;
    let (collector, other) = walked.handler.into_parts();
    if collector.is_refused {
        return Err(AllocError);
    }
    Ok(FoundBeside {
        found: Identifiers {
            all: with_paths(collector.found, &collector.qualified, &walked.paths),
            outer: walked.outer,
            starts: collector.starts,
        },
        paths: walked.paths,
        handler: other,
    })
}
