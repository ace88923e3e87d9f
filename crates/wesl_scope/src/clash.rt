//! Whether names clash.
ghost use Rattle.std.specs.Prelude.{◌≡◌, ◌↔◌, false, IfOk, IfErr};
ghost use Rattle.wesl_tree_names.specs.declared.errors.Error as error;
ghost use Rattle.wesl_tree.specs.Translation.{unit_view};
ghost use Rattle.wesl_scope_numbers.specs.Faithful.{IsFaithful};

use std::alloc::Global;
use wesl_scope_numbers::{law_of_faith, readings_of};
use wesl_tree::{Error, TranslationUnit};

/// Whether the names of a module, read by plain scoping (WGSL, "Declaration and Scope"), mean something else than its
/// numbers say.
///
/// It answers `false` exactly where names of the module with different numbers are spelled differently, and each
/// reference without a path has the number of all binders that its name picks or, where that picks none, a number that
/// no binder has. Refused for want of memory alone.
pub fn names_clash(alloc: Global, unit: &TranslationUnit) -> Result<bool, Error>
    ensures exact { IfOk result (λ clash. (clash ≡ false) ↔ IsFaithful (unit_view unit.now)) }
    ensures refused { IfErr result (λ e. e ≡ error.Memory) }
{
    law_of_faith();
    let read = readings_of(alloc, unit)?;
    Ok(!(read.are_names_apart && read.are_references_right))
}
