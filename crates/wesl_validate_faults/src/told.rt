//! What was found, told by diagnostics.
ghost use Rattle.std.specs.Prelude.{◌≡◌, IfOk, string_bytes};
ghost use Rattle.std.specs.List.{AllZip};
ghost use Rattle.std.specs.Option.{option_map};
ghost use Rattle.wesl_validate_faults.specs.Findings.{holder};
ghost use Rattle.wesl_validate_faults.specs.Gathered.{finding_view, findings_view};
ghost use Rattle.wesl_validate_faults.specs.Telling.{IsErrorOf, TellsFinding};

use crate::finding::Finding;
use std::alloc::{AllocError, Global};
use wesl_tree_names::{Diagnostic, Error, ValidateError};

/// The error of a finding.
fn error_of(alloc: Global, finding: &Finding<'_>) -> Result<ValidateError, AllocError>
    ensures { IfOk result (IsErrorOf (finding_view finding.now)) }
{
    match finding {
        Finding::Undefined(_, name) => {
            let name = String::from_str(alloc, *name)?;
            Ok(ValidateError::UndefinedSymbol(name))
        }
        Finding::Duplicate(name) => {
            let name = String::from_str(alloc, *name)?;
            Ok(ValidateError::Duplicate(name))
        }
        Finding::Cycle(name, by) => {
            let name = String::from_str(alloc, *name)?;
            let by = String::from_str(alloc, *by)?;
            Ok(ValidateError::Cycle(name, by))
        }
        Finding::Miscounted(_, name, expected, got) => {
            let name = String::from_str(alloc, *name)?;
            Ok(ValidateError::ParamCount(name, *expected, *got))
        }
        Finding::NotCallable(_, name) => {
            let name = String::from_str(alloc, *name)?;
            Ok(ValidateError::NotCallable(name))
        }
    }
}

/// The name of the declaration that holds a finding, if there is one and it declares a name.
fn holder_of<'a>(finding: &Finding<'a>) -> Option<&'a str>
    ensures { option_map (λ n. n.now) result ≡ holder (finding_view finding.now) }
{
    match finding {
        Finding::Undefined(holder, _) => *holder,
        Finding::Duplicate(name) => Some(*name),
        Finding::Cycle(name, _) => Some(*name),
        Finding::Miscounted(holder, _, _, _) => *holder,
        Finding::NotCallable(holder, _) => *holder,
    }
}

/// A text of its own.
fn owned(alloc: Global, text: Option<&str>) -> Result<Option<String>, AllocError>
    ensures { IfOk result (λ own. option_map string_bytes own ≡ option_map (λ n. n.now) text.entry) }
{
    match text {
        None => Ok(None),
        Some(text) => Ok(Some(String::from_str(alloc, text)?)),
    }
}

/// The diagnostic of a finding.
fn diagnostic_of(alloc: Global, finding: &Finding<'_>) -> Result<Diagnostic, AllocError>
    ensures { IfOk result (TellsFinding (finding_view finding.now)) }
{
    let error = error_of(alloc, finding)?;
    let declaration = owned(alloc, holder_of(finding))?;
    let mut diagnostic = Diagnostic::of(Error::Validate(error));
    diagnostic.declaration = declaration;
    Ok(diagnostic)
}

/// The diagnostics of findings, in their order.
pub(crate) fn diagnostics_of(
    alloc: Global,
    findings: &Vec<Finding<'_>>,
) -> Result<Vec<Diagnostic>, AllocError>
    ensures { IfOk result (λ told. AllZip TellsFinding (findings_view findings.now.items) told.items) }
{
    let mut told = Vec::new(alloc);
    for finding in findings {
        told.push(diagnostic_of(alloc, finding)?)?;
    }
    Ok(told)
}
