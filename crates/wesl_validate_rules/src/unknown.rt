//! References to nothing.
ghost use Rattle.std.specs.Prelude.{◌≡◌, ◌<◌, length, map, IfOk, IfSome, IfNone};
ghost use Rattle.std.specs.List.{All, find};
ghost use Rattle.std.specs.Option.{option_map};
ghost use Rattle.wesl_tree_syntax.specs.Unit.{UnitView};
ghost use Rattle.wesl_scope_occurrences.specs.Views.{occurrence_view};
ghost use Rattle.wesl_scope_strip.specs.Declarations.{all};
ghost use Rattle.wesl_validate_builtins.specs.Builtins.{builtins_view};
ghost use Rattle.wesl_validate_rules.specs.Valid.{IsDefined};
ghost use Rattle.wesl_validate_rules.specs.Known.{IsUndefinedAt, IsNamedBy, is_unknown};

use crate::known::known_numbers;
use std::alloc::{AllocError, Global};
use wesl_scope_occurrences::{Identifiers, Occurrence};
use wesl_tree_names::Names;
use wesl_validate_builtins::Builtins;

/// Whether it is a reference without a path, in no argument of a custom attribute, to a number that is not marked.
pub fn is_unknown(occurrence: &Occurrence<'_>, known: &Vec<bool>) -> bool
    ensures { result ≡ is_unknown known.now.items (occurrence_view occurrence.now) }
{
    let number = occurrence.ident.0;
    occurrence.standing.is_unqualified()
        && !occurrence.is_excused
        && !(number < known.len() && known[number])
}

#[tactic(auto, using(wesl_validate_builtins::proofs::Strings::find_map, wesl_validate_builtins::proofs::Strings::find_map_next))]
fn first_unknown<'a, 'b>(
    found: &'b Identifiers<'a>,
    known: &Vec<bool>,
) -> Option<&'b Occurrence<'a>>
    ensures { option_map (λ o. occurrence_view o.now) result ≡ find (is_unknown known.now.items) (map occurrence_view found.now.all.items) }
{
    for occurrence in &found.all {
        if is_unknown(occurrence, known) {
            return Some(occurrence);
        }
    }
    None
}

/// The number of a reference that is not defined, and the declaration that it lies in, if there is such a reference.
///
/// `found` are the identifiers of a module, and `names` its table of names. Refused for want of memory alone.
pub fn undefined(
    alloc: Global,
    names: &Names,
    found: &Identifiers<'_>,
    builtins: &Builtins,
) -> Result<Option<(usize, Option<usize>)>, AllocError>
    requires within { All (λ o. o.ident.0 < length names.now) found.now.all.items }
    ensures undefined { IfOk result (λ r. IfSome r (λ p. (u : UnitView) → IsNamedBy u names.now found.now → IsUndefinedAt u (builtins_view builtins.now) p.0 p.1)) }
    ensures none { IfOk result (λ r. IfNone r ((u : UnitView) → IsNamedBy u names.now found.now → IsDefined u (builtins_view builtins.now))) }
{
    let known = known_numbers(alloc, names, found, builtins)?;
    match first_unknown(found, &known) {
        None => Ok(None),
        Some(occurrence) => Ok(Some((occurrence.ident.0, occurrence.declaration))),
    }
}
