//! What clashes in a whole module.
ghost use Rattle.std.specs.Prelude.{◌≡◌, ◌<◌, ◌↔◌, [], length, map, IfOk, IfErr, OnOk};
ghost use Rattle.std.specs.List.{All};
ghost use Rattle.wesl_tree_names.specs.declared.errors.Error as error;
ghost use Rattle.wesl_tree.specs.Translation.{unit_view};
ghost use Rattle.wesl_scope_occurrences.specs.Views.{occurrence_view};
ghost use Rattle.wesl_scope_numbers.specs.Faithful.{IsFaithful};
ghost use Rattle.wesl_scope_clashes.specs.Clashes.{clash_view, clashes};
ghost use Rattle.wesl_scope_clashes.specs.Finding.{told_with, by_tables, by_identifiers};

use crate::binders::Binders;
use crate::bound::bound_numbers;
use crate::clash::Clash;
use crate::laws::law_of_clashes;
use crate::reading::clash;
use std::alloc::{AllocError, Global};
use wesl_scope_numbers::numbers_by_meaning;
use wesl_scope_occurrences::{Occurrence, law_of_occurrences, law_of_ways, occurrences};
use wesl_tree::{Error, Names, TranslationUnit};

/// Adds what is told of an identifier, if something is.
fn keep<'a>(clashes: &mut Vec<Clash<'a>>, found: Option<Clash<'a>>) -> Result<(), AllocError>
    ensures { OnOk result (map clash_view clashes.new.items ≡ told_with clashes.old.items found.entry) }
{
    match found {
        Some(found) => {
            clashes.push(found)?;
            Ok(())
        }
        None => Ok(()),
    }
}

/// What clashes among identifiers, each with its meaning, by the tables of binders.
fn clashes_by_tables<'a>(
    alloc: Global,
    names: &'a Names,
    visible: &Binders,
    globals: &Binders,
    bound: &[bool],
    all: &[Occurrence<'_>],
    means: &[usize],
) -> Result<Vec<Clash<'a>>, AllocError>
    requires named { All (λ o. o.ident.0 < length names.now) all.now }
    requires same_length { length means.now ≡ length all.now }
    ensures { IfOk result (λ r. map clash_view r.items ≡ by_tables visible.now globals.now bound.now names.now means.now all.now) }
{
    let mut clashes = Vec::new(alloc);
    for i in 0..all.len() {
        let found = clash(names, visible, globals, bound, means[i], &all[i]);
        keep(&mut clashes, found)?;
    }
    Ok(clashes)
}

/// What clashes among the identifiers of a module, each with its meaning.
fn clashes_among<'a>(
    alloc: Global,
    names: &'a Names,
    all: &[Occurrence<'_>],
    means: &[usize],
) -> Result<Vec<Clash<'a>>, AllocError>
    requires named { All (λ o. o.ident.0 < length names.now) all.now }
    requires same_length { length means.now ≡ length all.now }
    ensures { IfOk result (λ r. map clash_view r.items ≡ by_identifiers names.now means.now (map occurrence_view all.now)) }
{
    let visible = Binders::visible(alloc, all, means)?;
    let globals = Binders::of_module(alloc, all, means)?;
    let bound = bound_numbers(alloc, names.len(), all)?;
    clashes_by_tables(alloc, names, &visible, &globals, &bound, all, means)
}

/// The identifiers of a module at which its printed names, read by plain scoping (WGSL, "Declaration and Scope"), mean
/// something else than its numbers say, in document order.
///
/// These are the references without a path whose name picks a binder with another number, or no binder where their number
/// is one's; and the binders of the module's block before which one with their name and another number stands. There is
/// none exactly where `names_clash` answers `false`, which is the faster call. Refused for want of memory alone.
pub fn clashes<'a>(alloc: Global, unit: &'a TranslationUnit) -> Result<Vec<Clash<'a>>, Error>
    ensures told { IfOk result (λ found. map clash_view found.items ≡ clashes (unit_view unit.now)) }
    ensures none { IfOk result (λ found. (found.items ≡ []) ↔ IsFaithful (unit_view unit.now)) }
    ensures refused { IfErr result (λ e. e ≡ error.Memory) }
{
    law_of_ways();
    law_of_occurrences();
    law_of_clashes();
    let found = occurrences(alloc, unit)?;
    let (means, _names) = numbers_by_meaning(alloc, unit)?;
    let told = clashes_among(alloc, unit.names(), &found.all, &means)?;
    Ok(told)
}
