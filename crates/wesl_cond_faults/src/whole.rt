//! All faults of the conditions of a module.
ghost use Rattle.std.specs.Prelude.{◌≡◌, ◌↔◌, [], IfOk, IfErr};
ghost use Rattle.wesl_cond_faults.specs.Telling.{AddsUnder, HasNoFault, TellsUnit};
ghost use Rattle.wesl_cond_features.specs.Features.{answer_to};
ghost use Rattle.wesl_tree_names.specs.declared.errors.Error as error;
ghost use Rattle.wesl_tree_syntax.specs.Unit.{forest_of_unit, trees_of};
ghost use Rattle.wesl_tree.specs.Translation.{unit_view};

use crate::declarations::tell_declarations;
use crate::lists::tell_list;
use crate::told::Told;
use std::alloc::Global;
use wesl_cond_features::Features;
use wesl_tree::TranslationUnit;
use wesl_tree_names::{Diagnostic, Error};

/// Tells the faults of conditions in a unit.
fn tell_unit(told: &mut Told, unit: &TranslationUnit, features: &Features)
    ensures { let u = unit_view unit.now in AddsUnder u.names features.now (forest_of_unit (trees_of u)) told.old told.new }
{
    let names = unit.names();
    tell_list(told, unit.imports(), names, features);
    tell_list(told, unit.global_directives(), names, features);
    tell_declarations(told, unit.global_declarations(), names, features);
}

/// All faults of the conditions of a module, in document order (WESL, "ConditionalTranslation"): none exactly where `run`
/// refuses it for none.
///
/// Of each list that is judged every fault is told: a flag with template arguments or answered by a refusal, a formula that
/// is none, an `@elif` or an `@else` that goes on with no chain, and two conditions on a node. What lies inside the nodes of
/// a list is judged where the list itself has no fault, and in nodes that stay alone, since which nodes stay is not known
/// before. The diagnostic of a fault tells the span of the expression at fault, or of the node in the last two cases. Where a
/// node has none, as no parameter, clause, continuing block and `break if` has, it tells that of the attribute that goes on
/// with no chain, or of the second condition.
///
/// ```
/// for told in &faults(alloc, &unit, &features)? {
///     editor.underline(&told.span, &told.error);
/// }
/// ```
///
/// # Errors
/// [`Error::Memory`].
pub fn faults(
    alloc: Global,
    unit: &TranslationUnit,
    features: &Features,
) -> Result<Vec<Diagnostic>, Error>
    ensures told { IfOk result (λ told. TellsUnit (answer_to features.now) (unit_view unit.now) told.items) }
    ensures none { IfOk result (λ told. (told.items ≡ []) ↔ HasNoFault (answer_to features.now) (unit_view unit.now)) }
    ensures refused { IfErr result (λ e. e ≡ error.Memory) }
{
    let mut told = Told::new(alloc);
    tell_unit(&mut told, unit, features);
    if told.is_refused {
        Err(Error::Memory)
    } else {
        Ok(told.diagnostics)
    }
}
