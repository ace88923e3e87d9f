//! The fault of a call that fits nothing.
ghost use Rattle.std.specs.Prelude.{◌≡◌, IfOk, IfErr, IfSome, IfNone};
ghost use Rattle.wesl_tree_names.specs.declared.errors.Error as error;
ghost use Rattle.wesl_tree.specs.Translation.{unit_view};
ghost use Rattle.wesl_scope_occurrences.specs.Identified.{identified};
ghost use Rattle.wesl_scope_strip.specs.Declarations.{all};
ghost use Rattle.wesl_validate_builtins.specs.Builtins.{builtins_view};
ghost use Rattle.wesl_validate_rules.specs.Valid.{IsFitting};
ghost use Rattle.wesl_validate_calls.specs.CallFaults.{TellsMisfit, IsCallFault};

use crate::fault::Fault;
use crate::fitting::first_misfit;
use crate::misfit::Misfit;
use crate::told::{name_of, name_round};
use std::alloc::{AllocError, Global};
use wesl_scope_occurrences::{Identifiers, occurrences};
use wesl_tree::TranslationUnit;
use wesl_tree_names::{Error, Names, ValidateError};
use wesl_validate_builtins::Builtins;

/// What a misfit is told as.
fn error_of(alloc: Global, names: &Names, misfit: Misfit) -> Result<ValidateError, AllocError>
    ensures { IfOk result (TellsMisfit names.now misfit) }
{
    match misfit {
        Misfit::ParamCount {
            number,
            expected,
            got,
        } => {
            let name = name_of(alloc, names, number)?;
            Ok(ValidateError::ParamCount(name, expected, got))
        }
        Misfit::NotCallable { number } => {
            let name = name_of(alloc, names, number)?;
            Ok(ValidateError::NotCallable(name))
        }
    }
}

/// The fault of a call among the identifiers that were found, if there is one.
fn misfit_among(
    alloc: Global,
    unit: &TranslationUnit,
    found: &Identifiers<'_>,
    builtins: &Builtins,
) -> Result<Option<Fault>, Error>
    requires known { identified found.now ≡ all (unit_view unit.now) }
    ensures fault { IfOk result (λ r. IfSome r (IsCallFault (unit_view unit.now) (builtins_view builtins.now))) }
    ensures none { IfOk result (λ r. IfNone r (IsFitting (unit_view unit.now) (builtins_view builtins.now))) }
    ensures refused { IfErr result (λ e. e ≡ error.Memory) }
{
    match first_misfit(alloc, unit, found, builtins)? {
        None => Ok(None),
        Some((place, misfit)) => {
            let declaration = name_round(alloc, unit.names(), found, Some(place))?;
            let error = error_of(alloc, unit.names(), misfit)?;
            Ok(Some(Fault { error, declaration }))
        }
    }
}

/// The fault of a call, if there is one. Refused for want of memory alone.
pub fn call_fault(
    alloc: Global,
    unit: &TranslationUnit,
    builtins: &Builtins,
) -> Result<Option<Fault>, Error>
    ensures fault { IfOk result (λ r. IfSome r (IsCallFault (unit_view unit.now) (builtins_view builtins.now))) }
    ensures none { IfOk result (λ r. IfNone r (IsFitting (unit_view unit.now) (builtins_view builtins.now))) }
    ensures refused { IfErr result (λ e. e ≡ error.Memory) }
{
    let found = occurrences(alloc, unit)?;
    misfit_among(alloc, unit, &found, builtins)
}
