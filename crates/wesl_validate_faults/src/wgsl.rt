//! All faults of a module, those of calls too.
ghost use Rattle.std.specs.Prelude.{◌≡◌, ◌↔◌, [], IfOk, IfErr};
ghost use Rattle.wesl_tree_names.specs.declared.errors.Error as error;
ghost use Rattle.wesl_tree.specs.Translation.{unit_view};
ghost use Rattle.wesl_validate_builtins.specs.Builtins.{builtins_view};
ghost use Rattle.wesl_validate_rules.specs.Valid.{IsValidWgsl};
ghost use Rattle.wesl_validate_faults.specs.Telling.{TellsWgsl};

use crate::calls::call_findings;
use crate::told::diagnostics_of;
use crate::whole::findings_of;
use std::alloc::Global;
use wesl_scope_occurrences::occurrences;
use wesl_tree::TranslationUnit;
use wesl_tree_names::{Diagnostic, Error};
use wesl_validate_builtins::Builtins;

/// All faults of a module that `validate_wgsl` may refuse it with, each once: none exactly where the module is valid (WGSL,
/// "Declaration and Scope", "Function Calls" and "Value Constructor Expressions"). It goes by the numbers of `unit` as they
/// stand; call `retarget_idents` first.
///
/// First come those that `faults_wesl` tells, in its order; then the calls without a path that fit nothing of what their
/// aliases end in, in the order of their declarations. Of one declaration first come those that are expressions, then those
/// that are statements, both in document order. A call whose aliases run in a ring is told as that ring alone.
///
/// Of a call it tells `ParamCount` where its aliases end at a function or a structure, and else `NotCallable`, with the name
/// where they end. Where they end at several, it is the one with the least number, which `retarget_idents` gives to what
/// stands first in the document; and of several functions and structures of that number the first counts.
///
/// `fn f(x: i32) {} const k = f(); fn g() { k(); f(1); y(); }` has `UndefinedSymbol("y")` in `g`, `ParamCount("f", 1, 0)` in
/// `k`, and `NotCallable("k")` and `NotCallable("y")` in `g`.
///
/// ```
/// for told in &faults_wgsl(alloc, &unit, &builtins)? {
///     editor.list(&told.declaration, &told.error);
/// }
/// ```
///
/// # Errors
/// [`Error::Memory`].
pub fn faults_wgsl(
    alloc: Global,
    unit: &TranslationUnit,
    builtins: &Builtins,
) -> Result<Vec<Diagnostic>, Error>
    ensures told { IfOk result (λ told. TellsWgsl (unit_view unit.now) (builtins_view builtins.now) told.items) }
    ensures none { IfOk result (λ told. (told.items ≡ []) ↔ IsValidWgsl (unit_view unit.now) (builtins_view builtins.now)) }
    ensures refused { IfErr result (λ e. e ≡ error.Memory) }
{
    let found = occurrences(alloc, unit)?;
    let mut findings = findings_of(alloc, unit, &found, builtins)?;
    let mut calls = call_findings(alloc, unit, &found, builtins)?;
    findings.append(&mut calls)?;
    let told = diagnostics_of(alloc, &findings)?;
    Ok(told)
}
