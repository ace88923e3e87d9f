//! The validator of what WESL asks.
ghost use Rattle.std.specs.Prelude.{◌≡◌, None, IfOk, IfErr};
ghost use Rattle.wesl_tree_names.specs.declared.errors.Error as error;
ghost use Rattle.wesl_tree.specs.Translation.{unit_view};
ghost use Rattle.wesl_validate_builtins.specs.Builtins.{builtins_view};
ghost use Rattle.wesl_validate_rules.specs.Valid.{IsValidWesl};
ghost use Rattle.wesl_validate_rules.specs.Faults.{RefusesWesl};

use std::alloc::Global;
use wesl_tree::TranslationUnit;
use wesl_tree_names::{Diagnostic, Error};
use wesl_validate_builtins::Builtins;
use wesl_validate_calls::wesl_fault;

/// Asks that names are defined and distinct, and that no declaration reaches itself (WGSL, "Declaration and Scope"). It
/// goes by the numbers of `unit` as they stand; call `retarget_idents` first.
///
/// A name is defined where a binder has its number, where it is one of the names of `builtins`, or where it is `_`; names
/// with a path and arguments of custom attributes are not asked. The names of imports and declarations without a condition
/// are to be distinct.
///
/// `const k = bar;` is refused with `UndefinedSymbol("bar")` in the declaration `k`; `const k = 1; const k = 2;` with
/// `Duplicate("k")`, and not where one of the two has a condition; `fn f() { f(); }` with `Cycle("f", "f")`.
///
/// Refused with one fault that stands, and the name of the declaration that holds it (none for one in a `const_assert`;
/// of `Duplicate` and `Cycle` the name that they carry first), or for want of memory, with no name.
pub fn validate_wesl(
    alloc: Global,
    unit: &TranslationUnit,
    builtins: &Builtins,
) -> Result<(), Diagnostic>
    ensures valid { IfOk result (λ _. IsValidWesl (unit_view unit.now) (builtins_view builtins.now)) }
    ensures refused { IfErr result (RefusesWesl (unit_view unit.now) (builtins_view builtins.now)) }
    ensures memory { IfErr result (λ d. d.error ≡ error.Memory → d.declaration ≡ None) }
{
    match wesl_fault(alloc, unit, builtins)? {
        None => Ok(()),
        Some(fault) => {
            let mut diagnostic = Diagnostic::of(Error::Validate(fault.error));
            diagnostic.declaration = fault.declaration;
            Err(diagnostic)
        }
    }
}
