//! Whether the names of a linked unit are as is asked.
ghost use Rattle.std.specs.Prelude.{IfOk, IfErr, Some};
ghost use Rattle.wesl_tree.specs.Translation.{unit_view};
ghost use Rattle.wesl_validate_builtins.specs.Builtins.{builtins_view};
ghost use Rattle.wesl_validate_rules.specs.Valid.{IsDefined};
ghost use Rattle.wesl_text_linked.specs.Validity.{IsValidAs, RefusesAs, RefusesNames, TellsUndefined};

use crate::request::Validation;
use std::alloc::Global;
use wesl_scope::free_names;
use wesl_tree::{Diagnostic, Error, TranslationUnit, ValidateError};
use wesl_validate::validate_wgsl;
use wesl_validate_builtins::Builtins;

/// Asks that the names of a unit are as is wanted, under those that are built in.
pub(crate) fn check(
    alloc: Global,
    unit: &TranslationUnit,
    builtins: &Builtins,
    validation: Validation,
) -> Result<(), Diagnostic>
    ensures valid { IfOk result (λ _. IsValidAs validation (unit_view unit.now) (builtins_view builtins.now)) }
    ensures refused { IfErr result (RefusesAs validation (unit_view unit.now) (builtins_view builtins.now)) }
{
    match validation {
        Validation::Nothing => Ok(()),
        Validation::Names => check_names(alloc, unit, builtins),
        Validation::Calls => validate_wgsl(alloc, unit, builtins),
    }
}

// Asks that each name is declared or built in.
fn check_names(alloc: Global, unit: &TranslationUnit, builtins: &Builtins) -> Result<(), Diagnostic>
    ensures defined { IfOk result (λ _. IsDefined (unit_view unit.now) (builtins_view builtins.now)) }
    ensures refused { IfErr result (RefusesNames (unit_view unit.now) (builtins_view builtins.now)) }
{
    let free = match free_names(alloc, unit, builtins) {
        Ok(free) => free,
        Err(fault) => return Err(Diagnostic::of(fault)),
    };
    match free.first() {
        Some(name) => Err(Diagnostic::of(undefined(alloc, name))),
        None => Ok(()),
    }
}

// The fault of a name that nothing declares.
fn undefined(alloc: Global, name: &str) -> Error
    ensures { TellsUndefined (Some name.now) result }
{
    match String::from_str(alloc, name) {
        Ok(name) => Error::Validate(ValidateError::UndefinedSymbol(name)),
        Err(_) => Error::Memory,
    }
}
