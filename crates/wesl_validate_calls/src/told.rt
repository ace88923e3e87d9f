//! What a fault tells: names, and the declaration that holds it.
ghost use Rattle.std.specs.Prelude.{◌≡◌, string_bytes, IfOk};
ghost use Rattle.std.specs.List.{find};
ghost use Rattle.std.specs.Option.{option_map};
ghost use Rattle.wesl_tree_syntax.specs.Unit.{name_in};
ghost use Rattle.wesl_scope_occurrences.specs.Views.{occurrence_view};
ghost use Rattle.wesl_scope_strip.specs.Marks.{names_here};
ghost use Rattle.wesl_validate_rules.specs.Faults.{name_round};
ghost use Rattle.wesl_validate_calls.specs.Views.{OfNamed, found_view};

use std::alloc::{AllocError, Global};
use wesl_scope_occurrences::{Identifiers, Occurrence, Standing};
use wesl_tree_names::{Ident, Names};

/// The name of a number, and the empty text where the table has none.
pub fn name_of(alloc: Global, names: &Names, number: usize) -> Result<String, AllocError>
    ensures { IfOk result (λ name. string_bytes name ≡ name_in names.now number) }
{
    if number < names.len() {
        String::from_str(alloc, names.name(Ident(number)))
    } else {
        String::from_str(alloc, "")
    }
}

/// Whether it is the name of this declaration.
fn names_it(occurrence: &Occurrence<'_>, declaration: usize) -> bool
    ensures { result ≡ names_here declaration (occurrence_view occurrence.now) }
{
    match occurrence.standing {
        Standing::ModuleName => match occurrence.declaration {
            None => false,
            Some(other) => other == declaration,
        },
        _ => false,
    }
}

/// The identifier that a declaration declares, if it declares one.
#[tactic(auto, using(wesl_validate_builtins::proofs::Strings::find_map, wesl_validate_builtins::proofs::Strings::find_map_next))]
fn declared<'a, 'b>(found: &'b Identifiers<'a>, declaration: usize) -> Option<&'b Occurrence<'a>>
    ensures { option_map (λ o. occurrence_view o.now) result ≡ find (names_here declaration) (found_view found.now) }
{
    for occurrence in &found.all {
        if names_it(occurrence, declaration) {
            return Some(occurrence);
        }
    }
    None
}

/// The name of a declaration, if there is one and it declares a name.
pub fn name_round(
    alloc: Global,
    names: &Names,
    found: &Identifiers<'_>,
    declaration: Option<usize>,
) -> Result<Option<String>, AllocError>
    ensures { IfOk result (λ name. OfNamed names.now found.now (λ u. option_map string_bytes name ≡ name_round u declaration)) }
{
    let Some(declaration) = declaration else {
        return Ok(None);
    };
    match declared(found, declaration) {
        None => Ok(None),
        Some(occurrence) => Ok(Some(name_of(alloc, names, occurrence.ident.0)?)),
    }
}
