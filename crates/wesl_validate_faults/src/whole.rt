//! All faults of a module.
ghost use Rattle.std.specs.Prelude.{◌≡◌, ◌<◌, ◌↔◌, [], length, IfOk, IfErr};
ghost use Rattle.std.specs.List.{All};
ghost use Rattle.wesl_tree_names.specs.declared.errors.Error as error;
ghost use Rattle.wesl_tree.specs.Translation.{unit_view};
ghost use Rattle.wesl_scope_occurrences.specs.Identified.{identified};
ghost use Rattle.wesl_scope_strip.specs.Declarations.{all};
ghost use Rattle.wesl_validate_builtins.specs.Builtins.{builtins_view};
ghost use Rattle.wesl_validate_rules.specs.Valid.{IsValidWesl};
ghost use Rattle.wesl_validate_faults.specs.Gathered.{findings_view};
ghost use Rattle.wesl_validate_faults.specs.Listed.{AreFindings};
ghost use Rattle.wesl_validate_faults.specs.Telling.{TellsWesl};

use crate::cycles::add_cycles;
use crate::duplicates::add_duplicates;
use crate::finding::Finding;
use crate::once::each_once;
use crate::told::diagnostics_of;
use crate::undefined::add_undefineds;
use std::alloc::{AllocError, Global};
use wesl_scope_occurrences::{Identifiers, occurrences};
use wesl_tree::TranslationUnit;
use wesl_tree_names::{Diagnostic, Error};
use wesl_validate_builtins::Builtins;

/// What is found in a module whose identifiers were found, each once.
pub(crate) fn findings_of<'a>(
    alloc: Global,
    unit: &'a TranslationUnit,
    found: &Identifiers<'_>,
    builtins: &Builtins,
) -> Result<Vec<Finding<'a>>, AllocError>
    requires known { identified found.now ≡ all (unit_view unit.now) }
    requires within { All (λ o. o.ident.0 < length (unit_view unit.now).names) found.now.all.items }
    ensures { IfOk result (λ findings. AreFindings (unit_view unit.now) (builtins_view builtins.now) (findings_view findings.items)) }
{
    let mut findings = Vec::new(alloc);
    add_undefineds(alloc, &mut findings, unit.names(), found, builtins)?;
    add_duplicates(alloc, &mut findings, unit)?;
    add_cycles(alloc, &mut findings, unit.names(), found)?;
    each_once(alloc, &findings)
}

/// All faults of a module that `validate_wesl` may refuse it with, each once: none exactly where it takes the module (WGSL,
/// "Declaration and Scope"). It goes by the numbers of `unit` as they stand; call `retarget_idents` first.
///
/// First come references that are not defined, each name once for each name of a declaration that holds it; then names that
/// two imports or declarations without a condition have, each name once, where it is declared for the second time; then
/// declarations that reach themselves, each of a ring with the first that leads back to it. Each of these three is in
/// document order, where imports come before declarations. A diagnostic is as `validate_wesl` answers it: its error, and the
/// name of the declaration that holds it.
///
/// `fn f() { x = y; f(); } fn f() { x(); }` has `UndefinedSymbol("x")` and `UndefinedSymbol("y")`, both in `f`,
/// `Duplicate("f")` and `Cycle("f", "f")`.
///
/// ```
/// for told in &faults_wesl(alloc, &unit, &builtins)? {
///     editor.list(&told.declaration, &told.error);
/// }
/// ```
///
/// # Errors
/// [`Error::Memory`].
pub fn faults_wesl(
    alloc: Global,
    unit: &TranslationUnit,
    builtins: &Builtins,
) -> Result<Vec<Diagnostic>, Error>
    ensures told { IfOk result (λ told. TellsWesl (unit_view unit.now) (builtins_view builtins.now) told.items) }
    ensures none { IfOk result (λ told. (told.items ≡ []) ↔ IsValidWesl (unit_view unit.now) (builtins_view builtins.now)) }
    ensures refused { IfErr result (λ e. e ≡ error.Memory) }
{
    let found = occurrences(alloc, unit)?;
    let findings = findings_of(alloc, unit, &found, builtins)?;
    let told = diagnostics_of(alloc, &findings)?;
    Ok(told)
}
