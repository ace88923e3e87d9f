//! The identifiers of a whole module.
ghost use Rattle.std.specs.Prelude.{◌≡◌, ◌<◌, IfOk, length, map};
ghost use Rattle.std.specs.List.{All};
ghost use Rattle.wesl_tree_syntax.specs.Tree.{before, end, identifiers, directive_node};
ghost use Rattle.wesl_tree_syntax.specs.Unit.{trees_of};
ghost use Rattle.wesl_tree_syntax.specs.View.{placed, directive_view};
ghost use Rattle.wesl_tree.specs.Translation.{unit_view};
ghost use Rattle.wesl_scope_occurrences.specs.Occurrences.{occurrences};
ghost use Rattle.wesl_scope_occurrences.specs.Identified.{identified};
ghost use Rattle.wesl_scope_occurrences.specs.Pieces.{starts};
ghost use Rattle.wesl_scope_occurrences.specs.Ways.{AreNested};
ghost use Rattle.wesl_scope_occurrences.specs.Outer.{outers};

use crate::collector::Collector;
use crate::here::Here;
use crate::occurrence::Occurrence;
use crate::paths::with_paths;
use crate::unit::walk_unit;
use crate::walk::Walk;
use std::alloc::{AllocError, Global};
use wesl_tree::{GlobalDirectiveNode, Ident, TranslationUnit};

/// The identifiers of a module, and its blocks.
#[derive(Drop)]
pub struct Identifiers<'a> {
    /// the identifiers, in document order
    pub all: Vec<Occurrence<'a>>,
    /// of each block, by its number, the number of the one round it; the module's block is 0
    pub outer: Vec<usize>,
    /// of each global declaration how many identifiers come before it
    pub starts: Vec<usize>,
}

/// How many identifiers a module may have, told by its names, of which each stands some times: most modules have no more.
pub(crate) fn room_for(unit: &TranslationUnit) -> usize {
    unit.names().len().saturating_mul(6)
}

/// The identifiers of a module in document order, each with how it stands, its place in that order and its block
/// (WGSL, "Declaration and Scope"). Refused for want of memory alone.
pub fn occurrences<'a>(
    alloc: Global,
    unit: &'a TranslationUnit,
) -> Result<Identifiers<'a>, AllocError>
    ensures all { IfOk result (λ found. identified found ≡ occurrences (trees_of (unit_view unit.now))) }
    ensures blocks { IfOk result (λ found. All (λ o. o.block < length found.outer.items) found.all.items) }
    ensures nested { IfOk result (λ found. AreNested found.outer.items) }
    ensures outer { IfOk result (λ found. found.outer.items ≡ outers (trees_of (unit_view unit.now))) }
    ensures starts { IfOk result (λ found. found.starts.items ≡ starts (trees_of (unit_view unit.now))) }
    ensures names { IfOk result (λ found. All (λ o. o.ident.0 < length (unit_view unit.now).names) found.all.items) }
{
    let walked = walk_unit(alloc, unit, Collector::new(alloc, room_for(unit)))?;
    let collector = walked.handler;
    if collector.is_refused {
        return Err(AllocError);
    }
    Ok(Identifiers {
        all: with_paths(collector.found, &collector.qualified, &walked.paths),
        outer: walked.outer,
        starts: collector.starts,
    })
}

/// The identifiers themselves.
fn idents(alloc: Global, found: &[Occurrence<'_>]) -> Result<Vec<Ident>, AllocError>
    ensures { IfOk result (λ idents. map (λ i. i.0) idents.items ≡ map (λ o. o.ident.0) found.now) }
{
    let mut idents = Vec::new(alloc);
    let mut is_refused = false;
    for occurrence in found {
        is_refused |= idents.push(occurrence.ident).is_err();
    }
    if is_refused {
        return Err(AllocError);
    }
    Ok(idents)
}

/// The identifiers of a directive, in document order: all are words. Refused for want of memory alone.
pub fn words_of(alloc: Global, directive: &GlobalDirectiveNode) -> Result<Vec<Ident>, AllocError>
    ensures { IfOk result (λ found. map (λ i. i.0) found.items ≡ identifiers (before (placed directive_view directive_node directive.now) end)) }
{
    let mut walk = Walk::new(alloc, Collector::new(alloc, 0));
    walk.directive(&Here::outermost(), &directive.node);
    if walk.is_refused {
        return Err(AllocError);
    }
    if walk.handler.is_refused {
        return Err(AllocError);
    }
    idents(alloc, &walk.handler.found)
}
