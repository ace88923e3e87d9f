//! Uses of the names that a module leaves free, each of its own.
ghost use Rattle.std.specs.Prelude.{◌≡◌, ◌↔◌, ◌<◌, ◌++◌, [], length, map, IfOk, IfErr};
ghost use Rattle.std.specs.List.{All};
ghost use Rattle.wesl_tree_names.specs.declared.errors.Error as error;
ghost use Rattle.wesl_tree.specs.Translation.{unit_view};
ghost use Rattle.wesl_scope_occurrences.specs.Views.{occurrence_view};
ghost use Rattle.wesl_validate_builtins.specs.Builtins.{builtins_view};
ghost use Rattle.wesl_validate_rules.specs.Valid.{IsDefined};
ghost use Rattle.wesl_validate_free.specs.Gathered.{uses_view, use_here, uses_among};
ghost use Rattle.wesl_validate_free.specs.Uses.{free_uses};

use crate::laws::law_of_free_uses;
use std::alloc::{AllocError, Global};
use wesl_scope_occurrences::{Identifiers, Occurrence, occurrences};
use wesl_tree::{Error, TranslationUnit};
use wesl_tree_names::Names;
use wesl_validate_builtins::Builtins;
use wesl_validate_rules::{is_unknown, known_numbers};

/// A reference to a name that a module leaves free.
#[derive(Clone, Copy, Debug, PartialEq, Eq)]
pub struct FreeUse<'a> {
    /// its place among the module's identifiers, in document order
    pub place: usize,
    /// the name
    pub name: &'a str,
}

/// Adds an identifier, if it is a reference to a number that is not marked.
fn add_use<'a>(
    uses: &mut Vec<FreeUse<'a>>,
    names: &'a Names,
    known: &Vec<bool>,
    occurrence: &Occurrence<'_>,
) -> Result<(), AllocError>
    requires { occurrence.now.ident.0 < length names.now }
    ensures { IfOk result (λ _. uses_view uses.new.items ≡ uses_view uses.old.items ++ use_here known.now.items names.now (occurrence_view occurrence.now)) }
{
    if is_unknown(occurrence, known) {
        uses.push(FreeUse {
            place: occurrence.place,
            name: names.name(occurrence.ident),
        })?;
    }
    Ok(())
}

/// The references to numbers that are not marked, in document order.
fn unknown_uses<'a>(
    alloc: Global,
    names: &'a Names,
    known: &Vec<bool>,
    found: &Identifiers<'_>,
) -> Result<Vec<FreeUse<'a>>, AllocError>
    requires { All (λ o. o.ident.0 < length names.now) found.now.all.items }
    ensures { IfOk result (λ r. uses_view r.items ≡ uses_among known.now.items names.now (map occurrence_view found.now.all.items)) }
{
    let mut uses = Vec::new(alloc);
    for occurrence in &found.all {
        add_use(&mut uses, names, known, occurrence)?;
    }
    Ok(uses)
}

/// Each reference to a name that [`free_names`](crate::free_names) tells, in document order: two of one name are two. It
/// goes by the numbers of `unit` as they stand; call `retarget_idents` first.
///
/// The place of one counts the identifiers before it, so that `identifier_spans` has there the span of the innermost node
/// round it. There is none exactly where `validate_wesl` takes each reference as defined.
///
/// `const_assert a; const k = b + a;` has `a` at place 0, `b` at place 2 and `a` at place 3. Refused for want of memory alone.
///
/// ```
/// let spans = identifier_spans(alloc, &unit)?;
/// for at in &free_uses(alloc, &unit, &builtins)? {
///     editor.underline(spans[at.place], at.name);
/// }
/// ```
pub fn free_uses<'a>(
    alloc: Global,
    unit: &'a TranslationUnit,
    builtins: &Builtins,
) -> Result<Vec<FreeUse<'a>>, Error>
    ensures told { IfOk result (λ uses. uses_view uses.items ≡ free_uses (unit_view unit.now) (builtins_view builtins.now)) }
    ensures none { IfOk result (λ uses. (uses.items ≡ []) ↔ IsDefined (unit_view unit.now) (builtins_view builtins.now)) }
    ensures refused { IfErr result (λ e. e ≡ error.Memory) }
{
    law_of_free_uses();
    let found = occurrences(alloc, unit)?;
    let names = unit.names();
    let known = known_numbers(alloc, names, &found, builtins)?;
    let uses = unknown_uses(alloc, names, &known, &found)?;
    Ok(uses)
}
