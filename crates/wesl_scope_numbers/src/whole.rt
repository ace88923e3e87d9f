//! How the names of a whole module read.
ghost use Rattle.std.specs.Prelude.{◌≡◌, IfOk};
ghost use Rattle.wesl_tree_syntax.specs.Unit.{trees_of};
ghost use Rattle.wesl_tree.specs.Translation.{unit_view};
ghost use Rattle.wesl_scope_occurrences.specs.Occurrences.{occurrences};
ghost use Rattle.wesl_scope_numbers.specs.Test.{are_apart, all_read_right};
ghost use Rattle.wesl_scope_numbers.specs.Begun.{IsBegun};

use crate::judge::Judge;
use std::alloc::{AllocError, Global};
use wesl_scope_meanings::spellings;
use wesl_scope_occurrences::walk_unit;
use wesl_tree::{Names, TranslationUnit};

/// How the names of a module read, by plain scoping.
#[derive(Clone, Copy)]
pub struct Readings {
    /// whether binders of the module's block that are spelled alike have one number
    pub are_names_apart: bool,
    /// whether each reference without a path has the number of the binders that it picks or, where it picks none, a
    /// number that no binder has
    pub are_references_right: bool,
}

/// A judge of the identifiers of a unit, that has met none.
fn judge_of(alloc: Global, names: &Names) -> Result<Judge, AllocError>
    ensures { IfOk result (λ judge. IsBegun names.now judge) }
{
    let (alike, wide) = spellings(alloc, names)?;
    let judge = Judge::new(alloc, alike, wide)?;
    Ok(judge)
}

/// How the names of a module read, by plain scoping. Refused for want of memory alone.
pub fn readings_of(alloc: Global, unit: &TranslationUnit) -> Result<Readings, AllocError>
    ensures apart { IfOk result (λ r. r.are_names_apart ≡ are_apart (unit_view unit.now).names (occurrences (trees_of (unit_view unit.now)))) }
    ensures right { IfOk result (λ r. r.are_references_right ≡ all_read_right (unit_view unit.now).names (occurrences (trees_of (unit_view unit.now)))) }
{
    let judge = judge_of(alloc, unit.names())?;
    let walked = walk_unit(alloc, unit, judge)?;
    let judge = walked.handler;
    if judge.visible.is_refused {
        return Err(AllocError);
    }
    Ok(Readings {
        are_names_apart: judge.are_names_apart(),
        are_references_right: judge.are_references_right(),
    })
}
