//! The calls of a module.
ghost use Rattle.std.specs.Prelude.{◌≡◌, ◌++◌, IfOk, IfErr};
ghost use Rattle.wesl_tree_names.specs.declared.errors.Error as error;
ghost use Rattle.wesl_tree.specs.Translation.{unit_view};
ghost use Rattle.wesl_validate_calls.specs.Verdicts.{all_calls};
ghost use Rattle.wesl_validate_calls.specs.Views.{numbered_calls};
ghost use Rattle.wesl_validate_misfits.specs.Placed.{calls_view};

use std::alloc::{AllocError, Global};
use wesl_tree::TranslationUnit;
use wesl_tree_names::Error;
use wesl_validate_calls::{Call, calls_of};

/// Adds these calls of a declaration.
fn add_calls(
    calls: &mut Vec<(usize, Call)>,
    declaration: usize,
    found: &Vec<Call>,
) -> Result<(), AllocError>
    ensures { IfOk result (λ _. calls_view calls.new.items ≡ calls_view calls.old.items ++ numbered_calls declaration found.now) }
{
    for call in found {
        calls.push((declaration, *call))?;
    }
    Ok(())
}

/// The calls in all declarations, each with the number of its declaration. Refused for want of memory alone.
pub(crate) fn all_calls(alloc: Global, unit: &TranslationUnit) -> Result<Vec<(usize, Call)>, Error>
    ensures calls { IfOk result (λ calls. calls_view calls.items ≡ all_calls (unit_view unit.now)) }
    ensures refused { IfErr result (λ e. e ≡ error.Memory) }
{
    let declarations = unit.global_declarations();
    let mut calls = Vec::new(alloc);
    for j in 0..declarations.len() {
        let found = calls_of(alloc, &declarations[j].node)?;
        add_calls(&mut calls, j, &found)?;
    }
    Ok(calls)
}
