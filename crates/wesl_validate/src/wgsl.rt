//! The validator of what WGSL asks.
ghost use Rattle.std.specs.Prelude.{◌≡◌, None, IfOk, IfErr};
ghost use Rattle.wesl_tree_names.specs.declared.errors.Error as error;
ghost use Rattle.wesl_tree.specs.Translation.{unit_view};
ghost use Rattle.wesl_validate_builtins.specs.Builtins.{builtins_view};
ghost use Rattle.wesl_validate_rules.specs.Valid.{IsValidWgsl};
ghost use Rattle.wesl_validate_rules.specs.Faults.{RefusesWgsl};

use crate::wesl::validate_wesl;
use std::alloc::Global;
use wesl_tree::TranslationUnit;
use wesl_tree_names::{Diagnostic, Error};
use wesl_validate_builtins::Builtins;
use wesl_validate_calls::call_fault;

/// Asks what `validate_wesl` asks, and that each call without a path fits what its aliases end in (WGSL, "Function
/// Calls" and "Value Constructor Expressions"), by the numbers as they stand; call `retarget_idents` first.
///
/// A call fits a function of as many parameters, a structure of as many members or with no arguments, an alias of a type
/// with a path or with template arguments, and a name of no binder that the builtins call a function or a constructor.
/// Of several declarations of one name one that fits is enough; a call whose aliases run in a ring is passed over.
///
/// Refused with one fault that stands, and the name of the declaration that holds it, or for want of memory, with no name.
pub fn validate_wgsl(
    alloc: Global,
    unit: &TranslationUnit,
    builtins: &Builtins,
) -> Result<(), Diagnostic>
    ensures valid { IfOk result (λ _. IsValidWgsl (unit_view unit.now) (builtins_view builtins.now)) }
    ensures refused { IfErr result (RefusesWgsl (unit_view unit.now) (builtins_view builtins.now)) }
    ensures memory { IfErr result (λ d. d.error ≡ error.Memory → d.declaration ≡ None) }
{
    validate_wesl(alloc, unit, builtins)?;
    match call_fault(alloc, unit, builtins)? {
        None => Ok(()),
        Some(fault) => {
            let mut diagnostic = Diagnostic::of(Error::Validate(fault.error));
            diagnostic.declaration = fault.declaration;
            Err(diagnostic)
        }
    }
}
