//! Calls that fit nothing, each with its place.
ghost use Rattle.std.specs.Prelude.{◌≡◌, ◌↔◌, [], IfOk, IfErr};
ghost use Rattle.wesl_tree_names.specs.declared.errors.Error as error;
ghost use Rattle.wesl_tree.specs.Translation.{unit_view};
ghost use Rattle.wesl_scope_graph.specs.Graphs.{graph_view};
ghost use Rattle.wesl_validate_builtins.specs.Builtins.{builtins_view};
ghost use Rattle.wesl_validate_rules.specs.Valid.{IsFitting};
ghost use Rattle.wesl_validate_faults.specs.Gathered.{counts_of, misfitting_among, misfitting_here, misfitting_seen, misfitting_view, name_number};
ghost use Rattle.wesl_validate_faults.specs.Misfitting.{AreMisfitting};

use crate::laws::law_of_misfit_calls;
use crate::placed::{numbers_of_all, placed};
use crate::undefined::{holders_of, name_round};
use std::alloc::{AllocError, Global};
use wesl_scope_occurrences::occurrences;
use wesl_tree::TranslationUnit;
use wesl_tree_names::{Error, Names};
use wesl_validate_builtins::Builtins;
use wesl_validate_calls::Misfit;
use wesl_validate_misfits::{PlacedMisfit, placed_misfits};
use wesl_validate_rules::name_of;

/// A call that fits nothing of what its aliases end in.
#[derive(Clone, Copy, Debug, PartialEq, Eq)]
pub struct MisfitCall<'a> {
    /// the place of the name that is called among the module's identifiers, in document order
    pub place: usize,
    /// the name where its aliases end
    pub name: &'a str,
    /// how many arguments that takes and the call has, if it is a function or a structure
    pub counts: Option<(usize, usize)>,
    /// the name of the declaration that holds the call, if one does that declares a name
    pub declaration: Option<&'a str>,
}

/// The number of a misfit's name.
fn name_number(misfit: Misfit) -> usize
    ensures { result ≡ name_number misfit }
{
    match misfit {
        Misfit::ParamCount { number, .. } => number,
        Misfit::NotCallable { number } => number,
    }
}

/// How many arguments are taken, and how many the call has.
fn counts_of(misfit: Misfit) -> Option<(usize, usize)>
    ensures { result ≡ counts_of misfit }
{
    match misfit {
        Misfit::ParamCount {
            number: _,
            expected,
            got,
        } => Some((expected, got)),
        Misfit::NotCallable { number: _ } => None,
    }
}

/// What is found of a call.
fn misfit_call<'a>(
    names: &'a Names,
    holders: &Vec<Vec<usize>>,
    misfit: &PlacedMisfit,
) -> MisfitCall<'a>
    ensures { misfitting_seen result ≡ misfitting_here names.now (graph_view holders.now.items) misfit.now }
{
    MisfitCall {
        place: misfit.place,
        name: name_of(names, name_number(misfit.misfit)),
        counts: counts_of(misfit.misfit),
        declaration: name_round(names, holders, Some(misfit.declaration)),
    }
}

/// The same of each, in their order.
fn misfit_calls_of<'a>(
    alloc: Global,
    names: &'a Names,
    holders: &Vec<Vec<usize>>,
    misfits: &Vec<PlacedMisfit>,
) -> Result<Vec<MisfitCall<'a>>, AllocError>
    ensures { IfOk result (λ r. misfitting_view r.items ≡ misfitting_among names.now (graph_view holders.now.items) misfits.now.items) }
{
    let mut calls = Vec::new(alloc);
    for misfit in misfits {
        calls.push(misfit_call(names, holders, misfit))?;
    }
    Ok(calls)
}

/// Each call of a module that fits nothing of what its aliases end in, in the order of declarations, as
/// [`faults_wgsl`](crate::faults_wgsl) tells them, which tells each once for a declaration. It goes by the numbers of `unit`
/// as they stand; call `retarget_idents` first.
///
/// The place of one counts the identifiers before the name that is called, so that `identifier_spans` has there the span of
/// the innermost node round it. There is none exactly where each call fits whose aliases end anywhere.
///
/// `fn f(x: i32) {} fn g() { f(); f(); }` has `f`, which takes one argument and has none, at the places 4 and 5, both in `g`.
///
/// ```
/// let spans = identifier_spans(alloc, &unit)?;
/// for at in &misfit_calls(alloc, &unit, &builtins)? {
///     editor.underline(spans[at.place], at.name, at.counts);
/// }
/// ```
///
/// # Errors
/// [`Error::Memory`].
pub fn misfit_calls<'a>(
    alloc: Global,
    unit: &'a TranslationUnit,
    builtins: &Builtins,
) -> Result<Vec<MisfitCall<'a>>, Error>
    ensures told { IfOk result (λ calls. AreMisfitting (unit_view unit.now) (builtins_view builtins.now) (misfitting_view calls.items)) }
    ensures none { IfOk result (λ calls. (calls.items ≡ []) ↔ IsFitting (unit_view unit.now) (builtins_view builtins.now)) }
    ensures refused { IfErr result (λ e. e ≡ error.Memory) }
{
    law_of_misfit_calls();
    let found = occurrences(alloc, unit)?;
    let copy = placed(alloc, unit, &found)?;
    let given = numbers_of_all(alloc, &found)?;
    let misfits = placed_misfits(alloc, unit, &given, &copy, &found, builtins)?;
    let holders = holders_of(alloc, &found)?;
    let calls = misfit_calls_of(alloc, unit.names(), &holders, &misfits)?;
    Ok(calls)
}
