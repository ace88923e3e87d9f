//! References that are not defined, each with its place.
ghost use Rattle.std.specs.Prelude.{◌≡◌, ◌↔◌, [], IfOk, IfErr};
ghost use Rattle.wesl_tree_names.specs.declared.errors.Error as error;
ghost use Rattle.wesl_tree.specs.Translation.{unit_view};
ghost use Rattle.wesl_scope_graph.specs.Graphs.{graph_view};
ghost use Rattle.wesl_validate_builtins.specs.Builtins.{builtins_view};
ghost use Rattle.wesl_validate_rules.specs.Valid.{IsDefined};
ghost use Rattle.wesl_validate_calls.specs.Views.{found_view};
ghost use Rattle.wesl_validate_faults.specs.Gathered.{AddsUses, use_seen, uses_among, uses_view};
ghost use Rattle.wesl_validate_faults.specs.Uses.{undefined_uses};

use crate::laws::law_of_undefined_uses;
use crate::undefined::{holders_of, name_round};
use std::alloc::{AllocError, Global};
use wesl_scope_occurrences::{Identifiers, Occurrence, occurrences};
use wesl_tree::TranslationUnit;
use wesl_tree_names::{Error, Names};
use wesl_validate_builtins::Builtins;
use wesl_validate_rules::{is_unknown, known_numbers, name_of};

/// A reference that is not defined.
#[derive(Clone, Copy, Debug, PartialEq, Eq)]
pub struct UndefinedUse<'a> {
    /// its place among the module's identifiers, in document order
    pub place: usize,
    /// its name
    pub name: &'a str,
    /// the name of the declaration that holds it, if one does that declares a name
    pub declaration: Option<&'a str>,
}

/// Adds a reference, if it is not defined.
fn add_use<'a>(
    uses: &mut Vec<UndefinedUse<'a>>,
    names: &'a Names,
    known: &Vec<bool>,
    holders: &Vec<Vec<usize>>,
    occurrence: &Occurrence<'_>,
) -> Result<(), AllocError>
    ensures { IfOk result (λ _. AddsUses (use_seen names.now known.now holders.now occurrence.now) uses.old uses.new) }
{
    if is_unknown(occurrence, known) {
        uses.push(UndefinedUse {
            place: occurrence.place,
            name: name_of(names, occurrence.ident.0),
            declaration: name_round(names, holders, occurrence.declaration),
        })?;
    }
    Ok(())
}

/// The references that are not defined, by marks of the numbers that are, in document order.
fn uses_of<'a>(
    alloc: Global,
    names: &'a Names,
    known: &Vec<bool>,
    holders: &Vec<Vec<usize>>,
    found: &Identifiers<'_>,
) -> Result<Vec<UndefinedUse<'a>>, AllocError>
    ensures { IfOk result (λ r. uses_view r.items ≡ uses_among names.now known.now.items (graph_view holders.now.items) (found_view found.now)) }
{
    let mut uses = Vec::new(alloc);
    for occurrence in &found.all {
        add_use(&mut uses, names, known, holders, occurrence)?;
    }
    Ok(uses)
}

/// Each reference of a module that is not defined, in document order: of what [`faults_wesl`](crate::faults_wesl) tells as
/// `UndefinedSymbol`, once for each name and declaration, each use. It goes by the numbers of `unit` as they stand; call
/// `retarget_idents` first.
///
/// The place of one counts the identifiers before it, so that `identifier_spans` has there the span of the innermost node
/// round it. There is none exactly where `validate_wesl` takes each reference as defined.
///
/// `const_assert a; const k = a; const_assert a;` has `a` at the places 0 and 3, in no named declaration, and at 2 in `k`.
///
/// ```
/// let spans = identifier_spans(alloc, &unit)?;
/// for at in &undefined_uses(alloc, &unit, &builtins)? {
///     editor.underline(spans[at.place], at.name, at.declaration);
/// }
/// ```
///
/// # Errors
/// [`Error::Memory`].
pub fn undefined_uses<'a>(
    alloc: Global,
    unit: &'a TranslationUnit,
    builtins: &Builtins,
) -> Result<Vec<UndefinedUse<'a>>, Error>
    ensures told { IfOk result (λ uses. uses_view uses.items ≡ undefined_uses (unit_view unit.now) (builtins_view builtins.now)) }
    ensures none { IfOk result (λ uses. (uses.items ≡ []) ↔ IsDefined (unit_view unit.now) (builtins_view builtins.now)) }
    ensures refused { IfErr result (λ e. e ≡ error.Memory) }
{
    law_of_undefined_uses();
    let found = occurrences(alloc, unit)?;
    let names = unit.names();
    let known = known_numbers(alloc, names, &found, builtins)?;
    let holders = holders_of(alloc, &found)?;
    let uses = uses_of(alloc, names, &known, &holders, &found)?;
    Ok(uses)
}
