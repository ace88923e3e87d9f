//! All calls that fit nothing.
ghost use Rattle.std.specs.Prelude.{◌≡◌, ◌++◌, IfOk, IfErr};
ghost use Rattle.wesl_tree_names.specs.declared.errors.Error as error;
ghost use Rattle.wesl_tree.specs.Translation.{unit_view};
ghost use Rattle.wesl_scope_occurrences.specs.Identified.{identified};
ghost use Rattle.wesl_scope_strip.specs.Declarations.{all};
ghost use Rattle.wesl_validate_builtins.specs.Builtins.{builtins_view};
ghost use Rattle.wesl_validate_calls.specs.Made.{call_told};
ghost use Rattle.wesl_validate_calls.specs.Tables.{AreTables};
ghost use Rattle.wesl_validate_calls.specs.Verdicts.{IsVerdict, AreMisfits, misfit_in};
ghost use Rattle.wesl_validate_calls.specs.Views.{AddsMisfitsIn, AreEndsIn, builtins_in, calls_within, numbered_calls, tables_view};

use crate::callables::Callables;
use crate::calls::{Call, calls_of};
use crate::ends::{Ends, ends_of};
use crate::fitting::call_at;
use crate::judge::judged;
use crate::misfit::Misfit;
use crate::tables::{Tables, tables_of};
use std::alloc::{AllocError, Global};
use wesl_scope_occurrences::Identifiers;
use wesl_tree::TranslationUnit;
use wesl_tree_names::Error;
use wesl_tree_syntax::GlobalDeclaration;
use wesl_validate_builtins::Builtins;

/// What is told of a call, if it fits nothing of what its aliases end in: of several names where they end the first is
/// told. It costs a look-up in each table.
pub fn verdict(
    unit: &TranslationUnit,
    callables: &Callables<'_>,
    tables: &Tables,
    ends: &Ends,
    call: Call,
) -> Option<Misfit>
    requires tables { AreTables (unit_view unit.now) (tables_view tables.now) }
    requires ends { AreEndsIn tables.now (unit_view unit.now).names callables.now ends.now }
    ensures { IsVerdict (unit_view unit.now) (builtins_in callables.now) (call_told call) result }
{
    judged(tables, ends, unit.names(), callables, call)
}

/// Where the aliases of each number of a module with these tables lead. Refused for want of memory alone.
pub fn ends_in(
    alloc: Global,
    unit: &TranslationUnit,
    callables: &Callables<'_>,
    tables: &Tables,
) -> Result<Ends, AllocError>
    requires { AreTables (unit_view unit.now) (tables_view tables.now) }
    ensures { IfOk result (λ ends. AreEndsIn tables.now (unit_view unit.now).names callables.now ends) }
{
    let ends = ends_of(alloc, tables, unit.names(), callables)?;
    Ok(ends)
}

/// Adds the misfit of a call in a declaration, if there is one.
fn add(
    misfits: &mut Vec<(usize, Misfit)>,
    declaration: usize,
    misfit: Option<Misfit>,
) -> Result<(), AllocError>
    ensures { IfOk result (λ _. misfits.new.items ≡ misfits.old.items ++ misfit_in declaration misfit) }
{
    match misfit {
        None => Ok(()),
        Some(misfit) => {
            misfits.push((declaration, misfit))?;
            Ok(())
        }
    }
}

/// Adds those of these calls of a declaration that fit nothing.
fn add_misfits(
    misfits: &mut Vec<(usize, Misfit)>,
    unit: &TranslationUnit,
    callables: &Callables<'_>,
    tables: &Tables,
    ends: &Ends,
    declaration: usize,
    calls: &Vec<Call>,
) -> Result<(), AllocError>
    requires tables { AreTables (unit_view unit.now) (tables_view tables.now) }
    requires ends { AreEndsIn tables.now (unit_view unit.now).names callables.now ends.now }
    ensures { IfOk result (λ _. AddsMisfitsIn unit.now callables.now (numbered_calls declaration calls.now) misfits.old misfits.new) }
{
    for place in 0..calls.len() {
        let call = call_at(calls, place);
        let misfit = verdict(unit, callables, tables, ends, call);
        add(misfits, declaration, misfit)?;
    }
    Ok(())
}

/// Adds the calls in a declaration of this number that fit nothing.
fn add_misfits_in(
    alloc: Global,
    misfits: &mut Vec<(usize, Misfit)>,
    unit: &TranslationUnit,
    callables: &Callables<'_>,
    tables: &Tables,
    ends: &Ends,
    number: usize,
    declaration: &GlobalDeclaration,
) -> Result<(), Error>
    requires tables { AreTables (unit_view unit.now) (tables_view tables.now) }
    requires ends { AreEndsIn tables.now (unit_view unit.now).names callables.now ends.now }
    ensures added { IfOk result (λ _. AddsMisfitsIn unit.now callables.now (calls_within number declaration.now) misfits.old misfits.new) }
    ensures refused { IfErr result (λ e. e ≡ error.Memory) }
{
    let calls = calls_of(alloc, declaration)?;
    add_misfits(misfits, unit, callables, tables, ends, number, &calls)?;
    Ok(())
}

/// Those of all declarations.
fn misfits_of(
    alloc: Global,
    unit: &TranslationUnit,
    callables: &Callables<'_>,
    tables: &Tables,
    ends: &Ends,
) -> Result<Vec<(usize, Misfit)>, Error>
    requires tables { AreTables (unit_view unit.now) (tables_view tables.now) }
    requires ends { AreEndsIn tables.now (unit_view unit.now).names callables.now ends.now }
    ensures misfits { IfOk result (λ misfits. AreMisfits (unit_view unit.now) (builtins_in callables.now) misfits.items) }
    ensures refused { IfErr result (λ e. e ≡ error.Memory) }
{
    let declarations = unit.global_declarations();
    let mut misfits = Vec::new(alloc);
    for j in 0..declarations.len() {
        let node = &declarations[j].node;
        add_misfits_in(alloc, &mut misfits, unit, callables, tables, ends, j, node)?;
    }
    Ok(misfits)
}

/// All calls that fit nothing of what their aliases end in, each with the number of its declaration, in the order of the
/// declarations; of one declaration first those that are expressions, then those that are statements, both in document
/// order. A call whose aliases run in a ring is passed over.
///
/// Of several names in which the aliases of a call end the one is told whose number is the least: for a count the least
/// that a function or a structure has, and of several of its declarations the first of these.
///
/// `found` are the identifiers of the unit. It goes over the calls once, and over the aliases once for each count of arguments
/// that they lead to. Refused for want of memory alone.
pub fn misfits(
    alloc: Global,
    unit: &TranslationUnit,
    found: &Identifiers<'_>,
    builtins: &Builtins,
) -> Result<Vec<(usize, Misfit)>, Error>
    requires known { identified found.now ≡ all (unit_view unit.now) }
    ensures misfits { IfOk result (λ misfits. AreMisfits (unit_view unit.now) (builtins_view builtins.now) misfits.items) }
    ensures refused { IfErr result (λ e. e ≡ error.Memory) }
{
    let callables = Callables::new(alloc, builtins)?;
    let tables = tables_of(alloc, unit, found)?;
    let ends = ends_in(alloc, unit, &callables, &tables)?;
    misfits_of(alloc, unit, &callables, &tables, &ends)
}
