//! What is left of a unit.
ghost use Rattle.std.specs.Prelude.{◌≡◌};
ghost use Rattle.wesl_cond_unit.specs.Left.{left_of};
ghost use Rattle.wesl_cond_chains.specs.Judging.{Checks};
ghost use Rattle.wesl_cond_chains.specs.Nodes.{replies};
ghost use Rattle.wesl_cond_features.specs.Features.{answer_to};
ghost use Rattle.wesl_tree_syntax.specs.Unit.{forest_of_unit, trees_of};
ghost use Rattle.wesl_tree.specs.Translation.{unit_view};

use crate::declarations::settle_declarations;
use crate::judge::check_declarations;
use std::alloc::Global;
use std::mem;
use wesl_cond_chains::{check_list, law_of_bounds, settle_list};
use wesl_cond_features::Features;
use wesl_tree::TranslationUnit;
use wesl_tree_names::Diagnostic;

/// Judges the conditions of a unit.
pub fn check(alloc: Global, unit: &TranslationUnit, features: &Features) -> Result<(), Diagnostic>
    ensures { Checks (unit_view unit.now).names (replies (unit_view unit.now).names features.now) (forest_of_unit (trees_of (unit_view unit.now))) result }
{
    let names = unit.names();
    match check_list(alloc, unit.imports(), names, features) {
        Ok(()) => match check_list(alloc, unit.global_directives(), names, features) {
            Ok(()) => check_declarations(alloc, unit.global_declarations(), names, features),
            Err(fault) => Err(fault),
        },
        Err(fault) => Err(fault),
    }
}

/// Leaves what the features leave of a unit. Nodes move within their lists and operands within their formulas, so no
/// memory is taken. Nothing is refused: a flag that the features refuse stays.
pub fn resolve(alloc: Global, unit: &mut TranslationUnit, features: &Features)
    ensures { unit_view unit.new ≡ left_of (answer_to features.now) (unit_view unit.old) }
{
    law_of_bounds();
    let whole = mem::replace(unit, TranslationUnit::new(alloc));
    let (names, mut imports, mut directives, mut declarations) = whole.into_parts();
    settle_list(&mut imports, &names, features);
    settle_list(&mut directives, &names, features);
    settle_declarations(&mut declarations, &names, features);
    match TranslationUnit::from_parts(names, imports, directives, declarations) {
        Some(left) => *unit = left,
        None => {}
    }
}
