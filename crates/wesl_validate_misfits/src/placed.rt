//! All calls that fit nothing, each with the place of the name that is called.
ghost use Rattle.std.specs.Prelude.{◌≡◌, ◌++◌, get_or, IfOk, IfErr};
ghost use Rattle.wesl_tree_names.specs.declared.errors.Error as error;
ghost use Rattle.wesl_tree.specs.Translation.{unit_view};
ghost use Rattle.wesl_scope_occurrences.specs.Identified.{identified};
ghost use Rattle.wesl_scope_strip.specs.Declarations.{all};
ghost use Rattle.wesl_validate_builtins.specs.Builtins.{builtins_view};
ghost use Rattle.wesl_validate_calls.specs.Made.{call_told};
ghost use Rattle.wesl_validate_calls.specs.Tables.{AreTables};
ghost use Rattle.wesl_validate_calls.specs.Views.{AreEndsIn, builtins_in, tables_view};
ghost use Rattle.wesl_validate_misfits.specs.Placed.{ArePlaced, HasPlaced, call_there, calls_view, placed_misfit};

use crate::calls::all_calls;
use std::alloc::{AllocError, Global};
use wesl_scope_occurrences::Identifiers;
use wesl_tree::TranslationUnit;
use wesl_tree_names::Error;
use wesl_validate_builtins::Builtins;
use wesl_validate_calls::{Call, Callables, Ends, Misfit, Tables, ends_in, tables_of, verdict};

/// A call that fits nothing of what its aliases end in.
#[derive(Clone, Copy)]
pub struct PlacedMisfit {
    /// the place of the name that is called
    pub place: usize,
    /// the number of the declaration that holds the call
    pub declaration: usize,
    /// what is wrong with it
    pub misfit: Misfit,
}

/// The number at a place of the list, and past its end 0.
pub fn number_of(numbers: &Vec<usize>, place: usize) -> usize
    ensures { result ≡ get_or numbers.now.items place 0 }
{
    if place < numbers.len() {
        numbers[place]
    } else {
        0
    }
}

/// A call of what has a place among these numbers, by its number.
fn call_there(numbers: &Vec<usize>, call: Call) -> Call
    ensures { call_told result ≡ call_there numbers.now.items (call_told call) }
{
    Call {
        callee: number_of(numbers, call.callee),
        arguments: call.arguments,
    }
}

/// Adds the misfit of a call in a declaration, if there is one.
fn add_placed(
    misfits: &mut Vec<PlacedMisfit>,
    declaration: usize,
    call: Call,
    misfit: Option<Misfit>,
) -> Result<(), AllocError>
    ensures { IfOk result (λ _. misfits.new.items ≡ misfits.old.items ++ placed_misfit declaration (call_told call) misfit) }
{
    match misfit {
        None => Ok(()),
        Some(misfit) => {
            misfits.push(PlacedMisfit {
                place: call.callee,
                declaration,
                misfit,
            })?;
            Ok(())
        }
    }
}

/// Of these calls of places those that fit nothing.
fn placed_of(
    alloc: Global,
    unit: &TranslationUnit,
    numbers: &Vec<usize>,
    callables: &Callables<'_>,
    tables: &Tables,
    ends: &Ends,
    calls: &Vec<(usize, Call)>,
) -> Result<Vec<PlacedMisfit>, AllocError>
    requires tables { AreTables (unit_view unit.now) (tables_view tables.now) }
    requires ends { AreEndsIn tables.now (unit_view unit.now).names callables.now ends.now }
    ensures { IfOk result (λ r. HasPlaced unit.now (builtins_in callables.now) numbers.now.items (calls_view calls.now.items) r.items) }
{
    let mut misfits = Vec::new(alloc);
    for entry in calls {
        let (declaration, call) = *entry;
        let misfit = verdict(unit, callables, tables, ends, call_there(numbers, call));
        add_placed(&mut misfits, declaration, call, misfit)?;
    }
    Ok(misfits)
}

/// All calls of `placed` that fit nothing of what their aliases end in, each with the place of the name that is called. An
/// identifier of `placed` is a place among `numbers`, and a call of it is judged as one of the number there in `unit`; so where
/// `placed` is `unit` with the place of each identifier for its number, these are what [`misfits`](wesl_validate_calls::misfits)
/// tells, in its order.
///
/// `found` are the identifiers of `unit`. Refused for want of memory alone.
pub fn placed_misfits(
    alloc: Global,
    unit: &TranslationUnit,
    numbers: &Vec<usize>,
    placed: &TranslationUnit,
    found: &Identifiers<'_>,
    builtins: &Builtins,
) -> Result<Vec<PlacedMisfit>, Error>
    requires known { identified found.now ≡ all (unit_view unit.now) }
    ensures misfits { IfOk result (λ misfits. ArePlaced (unit_view unit.now) (builtins_view builtins.now) numbers.now.items (unit_view placed.now) misfits.items) }
    ensures refused { IfErr result (λ e. e ≡ error.Memory) }
{
    let callables = Callables::new(alloc, builtins)?;
    let tables = tables_of(alloc, unit, found)?;
    let ends = ends_in(alloc, unit, &callables, &tables)?;
    let calls = all_calls(alloc, placed)?;
    Ok(placed_of(alloc, unit, numbers, &callables, &tables, &ends, &calls)?)
}
