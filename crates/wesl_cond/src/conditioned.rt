//! What features leave of a unit.
ghost use Rattle.std.specs.Prelude.{◌≡◌, option_copied};
ghost use Rattle.wesl_cond.specs.Conditioned.{IsConditioned, IsHandedOn};
ghost use Rattle.wesl_tree_names.specs.declared.errors.Diagnostic.{out-Diagnostic};

use crate::unit::run;
use std::alloc::Global;
use wesl_cond_features::Features;
use wesl_tree::TranslationUnit;
use wesl_tree_names::{Diagnostic, Error, ResolveError};

/// What the features leave of a unit (WESL, "ConditionalTranslation"). Without features no condition is judged, and the
/// unit stays as it is.
///
/// It is refused where a fault of a condition stands. The diagnostic of the fault, which tells its place, is handed on as
/// a resolver's refusal holds it; want of memory stays [`Error::Memory`], also where none is left for the box.
pub fn condition(
    alloc: Global,
    unit: TranslationUnit,
    features: Option<&Features>,
) -> Result<TranslationUnit, Error>
    ensures { IsConditioned (option_copied features.entry) unit result }
{
    let Some(features) = features else {
        return Ok(unit);
    };
    let mut unit = unit;
    match run(alloc, &mut unit, features) {
        Ok(()) => Ok(unit),
        Err(told) => Err(handed_on(alloc, told)),
    }
}

/// What refuses a unit for a diagnostic: that in a box, or want of memory.
fn handed_on(alloc: Global, told: Diagnostic) -> Error
    ensures { IsHandedOn (λ fault. fault ≡ (out-Diagnostic told).error) result }
{
    if told.error.is_memory() {
        Error::Memory
    } else {
        match Box::new(alloc, told) {
            Ok(told) => Error::Resolve(ResolveError::Error(told)),
            Err(_) => Error::Memory,
        }
    }
}
