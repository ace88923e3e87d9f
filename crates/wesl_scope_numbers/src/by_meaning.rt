//! Numbers of a module's identifiers by what they mean.
ghost use Rattle.std.specs.Prelude.{◌≡◌, ◌<◌, ◌↔◌, ℕ, IfOk, IfErr, length, map};
ghost use Rattle.std.specs.List.{All, Contains};
ghost use Rattle.wesl_tree_names.specs.declared.errors.Error as error;
ghost use Rattle.wesl_tree_syntax.specs.Unit.{numbers, name_in, spelled};
ghost use Rattle.wesl_tree_syntax.specs.Numbers.{AreNumbers};
ghost use Rattle.wesl_tree.specs.Translation.{unit_view};
ghost use Rattle.wesl_scope_occurrences.specs.Occurrences.{occurrences};
ghost use Rattle.wesl_scope_meanings.specs.Scopes.{keys};

use crate::number_laws::law_of_numbers;
use crate::numbers::numbers_and_names;
use std::alloc::Global;
use wesl_scope_meanings::meanings_of;
use wesl_scope_occurrences::{law_of_occurrences, law_of_ways};
use wesl_tree::{Error, Names, TranslationUnit};

/// The numbers of a module's identifiers by what they mean, in document order, and a table of names for them, with one
/// name for each number. Refused for want of memory alone.
pub fn numbers_by_meaning(
    alloc: Global,
    unit: &TranslationUnit,
) -> Result<(Vec<usize>, Names), Error>
    ensures one_each { IfOk result (λ r. length r.0.items ≡ length (numbers (unit_view unit.now))) }
    ensures numbers { IfOk result (λ r. AreNumbers (keys (occurrences (spelled (unit_view unit.now)))) r.0.items) }
    ensures named { IfOk result (λ r. map (name_in r.1) r.0.items ≡ map (name_in (unit_view unit.now).names) (numbers (unit_view unit.now))) }
    ensures below { IfOk result (λ r. All (λ m. m < length r.1) r.0.items) }
    ensures table { IfOk result (λ r. (m : ℕ) → (m < length r.1) ↔ Contains r.0.items m) }
    ensures refused { IfErr result (λ e. e ≡ error.Memory) }
{
    law_of_numbers();
    law_of_ways();
    law_of_occurrences();
    let meant = meanings_of(alloc, unit)?;
    numbers_and_names(alloc, &meant.keys)
}
