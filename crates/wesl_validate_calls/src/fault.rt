//! The faults of a module.
ghost use Rattle.std.specs.Prelude.{◌≡◌, ◌<◌, length, IfOk, IfErr, IfSome, IfNone};
ghost use Rattle.std.specs.List.{All};
ghost use Rattle.wesl_tree_names.specs.declared.errors.Error as error;
ghost use Rattle.wesl_tree.specs.Translation.{unit_view};
ghost use Rattle.wesl_scope_occurrences.specs.Identified.{identified};
ghost use Rattle.wesl_scope_strip.specs.Declarations.{all};
ghost use Rattle.wesl_validate_builtins.specs.Builtins.{builtins_view};
ghost use Rattle.wesl_validate_rules.specs.Valid.{IsDefined, AreDistinct, IsAcyclic, IsValidWesl};
ghost use Rattle.wesl_validate_calls.specs.Found.{IsFault};
ghost use Rattle.wesl_validate_calls.specs.Views.{OfNamed};

use crate::told::{name_of, name_round};
use std::alloc::{AllocError, Global};
use wesl_scope_occurrences::{Identifiers, occurrences};
use wesl_tree::TranslationUnit;
use wesl_tree_names::{Error, Names, ValidateError};
use wesl_validate_builtins::Builtins;
use wesl_validate_rules::{cycle, duplicate, undefined};

/// A fault, and the name of the declaration that holds it.
#[derive(Drop)]
pub struct Fault {
    /// What the fault is, with the names that tell it.
    pub error: ValidateError,
    /// The name of the declaration, where there is one and it declares a name.
    pub declaration: Option<String>,
}

fn undefined_fault(
    alloc: Global,
    names: &Names,
    found: &Identifiers<'_>,
    builtins: &Builtins,
) -> Result<Option<Fault>, AllocError>
    requires within { All (λ o. o.ident.0 < length names.now) found.now.all.items }
    ensures fault { IfOk result (λ r. IfSome r (λ f. OfNamed names.now found.now (λ u. IsFault u (builtins_view builtins.now) f))) }
    ensures none { IfOk result (λ r. IfNone r (OfNamed names.now found.now (λ u. IsDefined u (builtins_view builtins.now)))) }
{
    match undefined(alloc, names, found, builtins)? {
        None => Ok(None),
        Some((number, declaration)) => {
            let name = name_of(alloc, names, number)?;
            let declaration = name_round(alloc, names, found, declaration)?;
            let error = ValidateError::UndefinedSymbol(name);
            Ok(Some(Fault { error, declaration }))
        }
    }
}

fn duplicate_fault(
    alloc: Global,
    unit: &TranslationUnit,
    builtins: &Builtins,
) -> Result<Option<Fault>, AllocError>
    ensures fault { IfOk result (λ r. IfSome r (λ f. IsFault (unit_view unit.now) (builtins_view builtins.now) f)) }
    ensures none { IfOk result (λ r. IfNone r (AreDistinct (unit_view unit.now))) }
{
    match duplicate(alloc, unit)? {
        None => Ok(None),
        Some(number) => {
            let name = name_of(alloc, unit.names(), number)?;
            let declaration = Some(name_of(alloc, unit.names(), number)?);
            let error = ValidateError::Duplicate(name);
            Ok(Some(Fault { error, declaration }))
        }
    }
}

fn cycle_fault(
    alloc: Global,
    names: &Names,
    found: &Identifiers<'_>,
    builtins: &Builtins,
) -> Result<Option<Fault>, AllocError>
    ensures fault { IfOk result (λ r. IfSome r (λ f. OfNamed names.now found.now (λ u. IsFault u (builtins_view builtins.now) f))) }
    ensures none { IfOk result (λ r. IfNone r (OfNamed names.now found.now IsAcyclic)) }
{
    match cycle(alloc, found)? {
        None => Ok(None),
        Some((first, last)) => {
            let name = name_of(alloc, names, first)?;
            let by = name_of(alloc, names, last)?;
            let declaration = Some(name_of(alloc, names, first)?);
            let error = ValidateError::Cycle(name, by);
            Ok(Some(Fault { error, declaration }))
        }
    }
}

/// A fault of a module whose identifiers were found, if it has one.
fn fault_among(
    alloc: Global,
    unit: &TranslationUnit,
    found: &Identifiers<'_>,
    builtins: &Builtins,
) -> Result<Option<Fault>, AllocError>
    requires known { identified found.now ≡ all (unit_view unit.now) }
    requires within { All (λ o. o.ident.0 < length (unit_view unit.now).names) found.now.all.items }
    ensures fault { IfOk result (λ r. IfSome r (λ f. IsFault (unit_view unit.now) (builtins_view builtins.now) f)) }
    ensures none { IfOk result (λ r. IfNone r (IsValidWesl (unit_view unit.now) (builtins_view builtins.now))) }
{
    if let Some(fault) = undefined_fault(alloc, unit.names(), found, builtins)? {
        return Ok(Some(fault));
    }
    if let Some(fault) = duplicate_fault(alloc, unit, builtins)? {
        return Ok(Some(fault));
    }
    cycle_fault(alloc, unit.names(), found, builtins)
}

/// A fault of a module, if it has one. Refused for want of memory alone.
pub fn wesl_fault(
    alloc: Global,
    unit: &TranslationUnit,
    builtins: &Builtins,
) -> Result<Option<Fault>, Error>
    ensures fault { IfOk result (λ r. IfSome r (λ f. IsFault (unit_view unit.now) (builtins_view builtins.now) f)) }
    ensures none { IfOk result (λ r. IfNone r (IsValidWesl (unit_view unit.now) (builtins_view builtins.now))) }
    ensures refused { IfErr result (λ e. e ≡ error.Memory) }
{
    let found = occurrences(alloc, unit)?;
    Ok(fault_among(alloc, unit, &found, builtins)?)
}
