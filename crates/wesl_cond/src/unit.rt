//! What is left of a unit.
ghost use Rattle.std.specs.Prelude.{◌≡◌, IfOk, IfErr, IsOk};
ghost use Rattle.wesl_cond.specs.Units.{left_of, AreSpelledTwoStages, AreTwoStages, GoesOn, GoesOnSpelled, IsFaultlessUnit, IsLeftOver, IsSpelledLeftOver, Picks, RefusesUnit};
ghost use Rattle.wesl_cond_features.specs.Features.{answer_to, HoldsNoError};
ghost use Rattle.wesl_tree.specs.Translation.{unit_view};

use std::alloc::Global;
use wesl_cond_chains::{
    law_of_both_stages, law_of_choices, law_of_faults, law_of_later_stages, law_of_stages,
    law_of_then, law_of_twice,
};
use wesl_cond_features::Features;
use wesl_cond_unit::{check, law_of_repetition, resolve};
use wesl_tree::TranslationUnit;
use wesl_tree_names::Diagnostic;

/// Conditional translation of a module (WESL, "ConditionalTranslation"): leaves of the unit what the features leave.
///
/// The lists judged are those of imports, directives, declarations, members, parameters, statements and switch clauses;
/// a continuing block is a last node of its loop's list, and a `break if` one of its continuing block's. Nodes that go are
/// not looked into.
///
/// It is refused, and the unit stays as it was, where a flag has template arguments or is answered by a refusal, where a
/// formula is none, where an `@elif` or an `@else` goes on with no chain, and where a node has two conditions. The
/// diagnostic tells the span of the expression at fault, or of the node in the last two cases, unless it is `0..0`, and
/// neither a module nor a declaration. Memory is taken to tell such a fault alone, so a unit without one is never refused.
///
/// Where it succeeds, it succeeds again on what it left, under the same features, and changes nothing more: no flag that they
/// refuse is left in a formula that is judged.
///
/// Runs may come in stages: what one run left is taken by the next, and the two leave what one run with
/// [`Features::then`] of their features leaves. Where neither refuses a flag and the first met no fault, the next meets
/// none, and no more does the one run. Spans and numbers do not count there: what the first run left may be printed and
/// read again before the next.
pub fn run(alloc: Global, unit: &mut TranslationUnit, features: &Features) -> Result<(), Diagnostic>
    ensures faultless { IfOk result (λ _. IsFaultlessUnit (answer_to features.now) (unit_view unit.old)) }
    ensures left { IfOk result (λ _. unit_view unit.new ≡ left_of (answer_to features.now) (unit_view unit.old)) }
    ensures settled { IfOk result (λ _. left_of (answer_to features.now) (unit_view unit.new) ≡ unit_view unit.new) }
    ensures settled_faultless { IfOk result (λ _. IsFaultlessUnit (answer_to features.now) (unit_view unit.new)) }
    ensures staged { IfOk result (λ _. GoesOn (answer_to features.now) (unit_view unit.old) (unit_view unit.new)) }
    ensures staged_spelled { IfOk result (λ _. GoesOnSpelled (answer_to features.now) (unit_view unit.old) (unit_view unit.new)) }
    ensures picks { IfOk result (λ _. Picks (answer_to features.now) (unit_view unit.old) (unit_view unit.new)) }
    ensures refused { IfErr result (RefusesUnit (answer_to features.now) (unit_view unit.old)) }
    ensures unchanged { IfErr result (λ _. unit.new ≡ unit.old) }
    ensures succeeds { IsFaultlessUnit (answer_to features.now) (unit_view unit.old) → IsOk result }
    ensures staged_succeeds { HoldsNoError (answer_to features.now) → IsLeftOver (unit_view unit.old) → IsOk result }
    ensures composed_succeeds { AreTwoStages (answer_to features.now) (unit_view unit.old) → IsOk result }
    ensures staged_spelled_succeeds { HoldsNoError (answer_to features.now) → IsSpelledLeftOver (unit_view unit.old) → IsOk result }
    ensures composed_spelled_succeeds { AreSpelledTwoStages (answer_to features.now) (unit_view unit.old) → IsOk result }
{
    law_of_stages();
    law_of_then();
    law_of_twice();
    law_of_choices();
    law_of_later_stages();
    law_of_both_stages();
    law_of_faults();
    law_of_repetition();
    match check(alloc, unit, features) {
        Ok(()) => {
            resolve(alloc, unit, features);
            Ok(())
        }
        Err(told) => Err(told),
    }
}
