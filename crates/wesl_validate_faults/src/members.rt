//! Declarations that reach themselves, each with its place.
ghost use Rattle.std.specs.Prelude.{◌≡◌, ◌↔◌, ◌++◌, ℕ, [], map, IfOk, IfErr};
ghost use Rattle.wesl_tree_names.specs.declared.errors.Error as error;
ghost use Rattle.wesl_tree.specs.Translation.{unit_view};
ghost use Rattle.wesl_scope_occurrences.specs.Views.{occurrence_view};
ghost use Rattle.wesl_scope_values.specs.Values.{value_at};
ghost use Rattle.wesl_validate_rules.specs.Valid.{IsAcyclic};
ghost use Rattle.wesl_validate_calls.specs.Views.{found_view};
ghost use Rattle.wesl_validate_faults.specs.Gathered.{AddsFirst, AddsMembers, member_here, members_among, members_view, place_by, place_of, placed_among, placed_here};
ghost use Rattle.wesl_validate_faults.specs.Members.{AreMembers};

use crate::closers::closers_of;
use std::alloc::{AllocError, Global};
use wesl_scope_occurrences::{Identifiers, Occurrence, occurrences};
use wesl_scope_values::{set_all_first, value_of};
use wesl_tree::TranslationUnit;
use wesl_tree_names::{Error, Names};
use wesl_validate_rules::{name_of, steps_of};

/// A declaration that reaches itself.
#[derive(Clone, Copy, Debug, PartialEq, Eq)]
pub struct RingMember<'a> {
    /// the place of its name among the module's identifiers, in document order
    pub place: usize,
    /// its name
    pub name: &'a str,
    /// the place of the name of the declaration that closes the ring: the first that leads back to it
    pub last: usize,
    /// the name of that
    pub via: &'a str,
}

/// Adds the place and the number of an import or a declaration, if this is its name.
fn add_placed(
    placed: &mut Vec<(usize, usize)>,
    occurrence: &Occurrence<'_>,
) -> Result<(), AllocError>
    ensures { IfOk result (λ _. placed.new.items ≡ placed.old.items ++ placed_here (occurrence_view occurrence.now)) }
{
    if occurrence.standing.is_module_name() {
        placed.push((occurrence.place, occurrence.ident.0))?;
    }
    Ok(())
}

/// The names of imports and declarations by their places and their numbers, in document order.
fn placed_names(alloc: Global, found: &Identifiers<'_>) -> Result<Vec<(usize, usize)>, AllocError>
    ensures { IfOk result (λ placed. placed.items ≡ placed_among (found_view found.now)) }
{
    let mut placed = Vec::new(alloc);
    for occurrence in &found.all {
        add_placed(&mut placed, occurrence)?;
    }
    Ok(placed)
}

/// The numbers of these names.
fn numbers_of(alloc: Global, placed: &Vec<(usize, usize)>) -> Result<Vec<usize>, AllocError>
    ensures { IfOk result (λ numbers. numbers.items ≡ map (λ x. x.1) placed.now.items) }
{
    let mut numbers = Vec::with_capacity(alloc, placed.len())?;
    for entry in placed {
        numbers.push(entry.1)?;
    }
    Ok(numbers)
}

/// Notes the place of a number, unless one is noted.
fn note_place(
    alloc: Global,
    firsts: &mut Vec<Option<usize>>,
    place: usize,
    number: usize,
) -> Result<(), AllocError>
    ensures { IfOk result (λ _. AddsFirst number place firsts.old.items firsts.new.items) }
{
    let mut nodes = Vec::new(alloc);
    nodes.push(number)?;
    set_all_first(firsts, &nodes, place)?;
    Ok(())
}

/// Of each number its first place.
fn first_places(
    alloc: Global,
    placed: &Vec<(usize, usize)>,
) -> Result<Vec<Option<usize>>, AllocError>
    ensures { IfOk result (λ firsts. (m : ℕ) → value_at firsts.items m ≡ place_of placed.now.items m) }
{
    let mut firsts = Vec::new(alloc);
    for entry in placed {
        let (place, number) = *entry;
        note_place(alloc, &mut firsts, place, number)?;
    }
    Ok(firsts)
}

/// The first place of a number, if there is one.
fn place_by(firsts: &Vec<Option<usize>>, number: Option<usize>) -> Option<usize>
    ensures { result ≡ place_by firsts.now.items number }
{
    match number {
        None => None,
        Some(number) => value_of(firsts, number),
    }
}

/// Adds the member of a ring that a name is, if it is one.
fn add_member<'a>(
    members: &mut Vec<RingMember<'a>>,
    names: &'a Names,
    entry: (usize, usize),
    last: Option<usize>,
    place: Option<usize>,
) -> Result<(), AllocError>
    ensures { IfOk result (λ _. AddsMembers (member_here names.now entry last place) members.old members.new) }
{
    match last {
        None => Ok(()),
        Some(number) => match place {
            None => Ok(()),
            Some(last) => {
                members.push(RingMember {
                    place: entry.0,
                    name: name_of(names, entry.1),
                    last,
                    via: name_of(names, number),
                })?;
                Ok(())
            }
        },
    }
}

/// Those of these names that are members of rings.
fn members_of<'a>(
    alloc: Global,
    names: &'a Names,
    closers: &Vec<Option<usize>>,
    firsts: &Vec<Option<usize>>,
    placed: &Vec<(usize, usize)>,
) -> Result<Vec<RingMember<'a>>, AllocError>
    ensures { IfOk result (λ r. members_view r.items ≡ members_among names.now closers.now.items firsts.now.items placed.now.items) }
{
    let mut members = Vec::new(alloc);
    for entry in placed {
        let last = value_of(closers, entry.1);
        let place = place_by(firsts, last);
        add_member(&mut members, names, *entry, last, place)?;
    }
    Ok(members)
}

/// Each declaration of a module that reaches itself, in document order: what [`faults_wesl`](crate::faults_wesl) tells as
/// `Cycle`, once for each two names, each with its place. It goes by the numbers of `unit` as they stand; call
/// `retarget_idents` first.
///
/// The place of one counts the identifiers before its name, so that `identifier_spans` has there the span of the innermost
/// node round it. With it goes the place of the declaration that closes the ring: the first in document order that it
/// reaches, or is, and that refers to it. There is none exactly where no declaration reaches itself.
///
/// `const a = b; const b = a;` has `a` at place 0, closed by `b` at place 2, and `b` at place 2, closed by `a` at place 0.
///
/// ```
/// let spans = identifier_spans(alloc, &unit)?;
/// for at in &ring_members(alloc, &unit)? {
///     editor.underline(spans[at.place], at.name, spans[at.last]);
/// }
/// ```
///
/// # Errors
/// [`Error::Memory`].
pub fn ring_members<'a>(
    alloc: Global,
    unit: &'a TranslationUnit,
) -> Result<Vec<RingMember<'a>>, Error>
    ensures told { IfOk result (λ members. AreMembers (unit_view unit.now) (members_view members.items)) }
    ensures none { IfOk result (λ members. (members.items ≡ []) ↔ IsAcyclic (unit_view unit.now)) }
    ensures refused { IfErr result (λ e. e ≡ error.Memory) }
{
    let found = occurrences(alloc, unit)?;
    let placed = placed_names(alloc, &found)?;
    let numbers = numbers_of(alloc, &placed)?;
    let graph = steps_of(alloc, &found)?;
    let closers = closers_of(alloc, &graph, &numbers)?;
    let firsts = first_places(alloc, &placed)?;
    let members = members_of(alloc, unit.names(), &closers, &firsts, &placed)?;
    Ok(members)
}
