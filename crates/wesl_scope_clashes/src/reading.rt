//! How one identifier reads.
ghost use Rattle.std.specs.Prelude.{◌≡◌, ◌<◌, length};
ghost use Rattle.std.specs.Option.{option_map};
ghost use Rattle.wesl_scope_occurrences.specs.Views.{occurrence_view};
ghost use Rattle.wesl_scope_strip.specs.Marks.{mark_at};
ghost use Rattle.wesl_scope_clashes.specs.Clashes.{clash_view};
ghost use Rattle.wesl_scope_clashes.specs.ByMeaning.{read_at, reading_by};
ghost use Rattle.wesl_scope_clashes.specs.Finding.{look, one_by_tables};

use crate::binders::{Binders, is_in_module};
use crate::clash::{Clash, Reading};
use wesl_scope_occurrences::Occurrence;
use wesl_tree::Names;

/// How a reference is misread, if it is, whose name has this meaning.
fn reference_reading(
    visible: &Binders,
    bound: &[bool],
    number: usize,
    place: usize,
    meaning: usize,
) -> Option<Reading>
    ensures { result ≡ read_at (look visible.now) (mark_at bound.now) meaning place number }
{
    match visible.first(meaning, place, None) {
        Some(_) => match visible.first(meaning, place, Some(number)) {
            Some(binder) => Some(Reading::Captured(binder)),
            None => None,
        },
        None => {
            if number < bound.len() && bound[number] {
                Some(Reading::Unbound)
            } else {
                None
            }
        }
    }
}

/// How an identifier of this meaning is misread, if it is.
fn reading(
    visible: &Binders,
    globals: &Binders,
    bound: &[bool],
    meaning: usize,
    occurrence: &Occurrence<'_>,
) -> Option<Reading>
    ensures { result ≡ reading_by (look visible.now) (look globals.now) (mark_at bound.now) meaning (occurrence_view occurrence.now) }
{
    let number = occurrence.ident.0;
    if occurrence.standing.is_unqualified() {
        reference_reading(visible, bound, number, occurrence.place, meaning)
    } else if is_in_module(occurrence) {
        match globals.first(meaning, occurrence.place, Some(number)) {
            Some(binder) => Some(Reading::Duplicate(binder)),
            None => None,
        }
    } else {
        None
    }
}

/// What is told of an identifier of this meaning, if it is misread.
pub fn clash<'a>(
    names: &'a Names,
    visible: &Binders,
    globals: &Binders,
    bound: &[bool],
    meaning: usize,
    occurrence: &Occurrence<'_>,
) -> Option<Clash<'a>>
    requires { occurrence.now.ident.0 < length names.now }
    ensures { option_map clash_view result ≡ one_by_tables visible.now globals.now bound.now names.now meaning occurrence.now }
{
    match reading(visible, globals, bound, meaning, occurrence) {
        Some(reading) => Some(Clash {
            place: occurrence.place,
            name: names.name(occurrence.ident),
            ident: occurrence.ident,
            reading,
        }),
        None => None,
    }
}
