//! What the built-in names of a bundle ask of its linked unit.
ghost use Rattle.std.specs.Prelude.{IfOk, IfErr, option_map};
ghost use Rattle.wesl_program_bundle.specs.Views.{builtins_view};
ghost use Rattle.wesl_tree_names.specs.declared.errors.Diagnostic.{out-Diagnostic};
ghost use Rattle.wesl_program.specs.Validity.{IsValidUnder, RefusesUnit};
ghost use Rattle.wesl_tree.specs.Translation.{unit_view};

use std::alloc::Global;
use wesl_program_bundle::BuiltinNames;
use wesl_tree::{Diagnostic, TranslationUnit};
use wesl_validate::validate_wgsl;
use wesl_validate_builtins::Builtins;

/// Validates the unit by the built-in names, where there are such. Refused with the validator's fault, which for want of
/// memory is `Memory`.
pub(crate) fn check_valid(
    alloc: Global,
    unit: &TranslationUnit,
    builtins: Option<BuiltinNames>,
) -> Result<(), Diagnostic>
    ensures valid { IfOk result (λ _. IsValidUnder (option_map builtins_view builtins) (unit_view unit.now)) }
    ensures refused { IfErr result (λ d. RefusesUnit (option_map builtins_view builtins) (unit_view unit.now) (out-Diagnostic d).error) }
{
    let Some(listed) = builtins else {
        return Ok(());
    };
    let builtins = Builtins::new(listed.names, listed.functions, listed.constructors);
    match validate_wgsl(alloc, unit, &builtins) {
        Ok(()) => Ok(()),
        Err(diagnostic) => Err(diagnostic),
    }
}
