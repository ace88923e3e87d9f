//! Names that are declared again, each with its place.
ghost use Rattle.std.specs.Prelude.{◌≡◌, ◌↔◌, [], IfOk, IfErr};
ghost use Rattle.wesl_tree_names.specs.declared.errors.Error as error;
ghost use Rattle.wesl_tree_syntax.specs.Unit.{UnitView, numbers};
ghost use Rattle.wesl_tree.specs.Translation.{unit_view};
ghost use Rattle.wesl_validate_rules.specs.Valid.{AreDistinct};
ghost use Rattle.wesl_validate_faults.specs.Gathered.{AddsRepeated, PutsAgain, firsts_view, repeated_view};
ghost use Rattle.wesl_validate_faults.specs.Repeated.{again_here, repeated, with_name};

use crate::laws::law_of_repeated_names;
use crate::placed::{numbers_of_all, placed};
use indexmap::IndexMap;
use std::alloc::{AllocError, Global};
use wesl_scope_occurrences::occurrences;
use wesl_tree::TranslationUnit;
use wesl_tree_names::{Error, Names};
use wesl_validate_misfits::number_of;
use wesl_validate_rules::{name_of, plain_numbers};

/// A name that is declared again.
#[derive(Clone, Copy, Debug, PartialEq, Eq)]
pub struct RepeatedName<'a> {
    /// its place among the module's identifiers, in document order
    pub place: usize,
    /// the place at which the name is declared first
    pub first: usize,
    /// the name
    pub name: &'a str,
}

/// Adds a name, if it was seen before, and else notes its place as the first.
fn add_repeated<'a>(
    repeated: &mut Vec<RepeatedName<'a>>,
    firsts: &mut IndexMap<&'a str, usize>,
    place: usize,
    name: &'a str,
) -> Result<(), AllocError>
    ensures noted { IfOk result (λ _. firsts_view firsts.new.entries ≡ with_name (firsts_view firsts.old.entries) (place, name.now)) }
    ensures added { IfOk result (λ _. PutsAgain (again_here (firsts_view firsts.old.entries) (place, name.now)) repeated.old repeated.new) }
{
    match firsts.get(name) {
        Some(first) => {
            let first = *first;
            repeated.push(RepeatedName { place, first, name })?;
            Ok(())
        }
        None => {
            firsts.insert(name, place)?;
            Ok(())
        }
    }
}

/// Adds the names of the identifiers at these places that stand before too, each where it stands again; `firsts` is empty
/// before.
fn add_all_repeated<'a>(
    repeated: &mut Vec<RepeatedName<'a>>,
    firsts: &mut IndexMap<&'a str, usize>,
    names: &'a Names,
    given: &Vec<usize>,
    places: &Vec<usize>,
) -> Result<(), AllocError>
    requires { firsts.old.entries ≡ [] }
    ensures { IfOk result (λ _. (u : UnitView) → names.now ≡ u.names → given.now.items ≡ numbers u → AddsRepeated u places.now.items repeated.old.items repeated.new.items) }
{
    for place in places {
        let name = name_of(names, number_of(given, *place));
        add_repeated(repeated, firsts, *place, name)?;
    }
    Ok(())
}

/// Each import and each declaration without a condition whose name is declared before, in document order, where imports come
/// before declarations: what [`faults_wesl`](crate::faults_wesl) tells as `Duplicate`, once for each name, each with its
/// place. It goes by the spellings of names.
///
/// The place of one counts the identifiers before it, so that `identifier_spans` has there the span of the innermost node
/// round it. With it goes the place at which the name is declared first. There is none exactly where no name is declared
/// twice.
///
/// `const k = 1; const k = k; const k = 2;` has `k` at the places 1 and 3, declared first at place 0.
///
/// ```
/// let spans = identifier_spans(alloc, &unit)?;
/// for at in &repeated_names(alloc, &unit)? {
///     editor.underline(spans[at.place], at.name, spans[at.first]);
/// }
/// ```
///
/// # Errors
/// [`Error::Memory`].
pub fn repeated_names<'a>(
    alloc: Global,
    unit: &'a TranslationUnit,
) -> Result<Vec<RepeatedName<'a>>, Error>
    ensures told { IfOk result (λ names. repeated_view names.items ≡ repeated (unit_view unit.now)) }
    ensures none { IfOk result (λ names. (names.items ≡ []) ↔ AreDistinct (unit_view unit.now)) }
    ensures refused { IfErr result (λ e. e ≡ error.Memory) }
{
    law_of_repeated_names();
    let found = occurrences(alloc, unit)?;
    let copy = placed(alloc, unit, &found)?;
    let given = numbers_of_all(alloc, &found)?;
    let places = plain_numbers(alloc, &copy)?;
    let mut repeated = Vec::new(alloc);
    let mut firsts = IndexMap::new(alloc);
    add_all_repeated(&mut repeated, &mut firsts, unit.names(), &given, &places)?;
    Ok(repeated)
}
