//! Calls that fit nothing.
ghost use Rattle.std.specs.Prelude.{◌≡◌, ◌<◌, length, get_or, map, IfOk, IfErr, IfSome, IfNone};
ghost use Rattle.wesl_tree_names.specs.declared.errors.Error as error;
ghost use Rattle.wesl_tree_syntax.specs.Tree.{before, end};
ghost use Rattle.wesl_tree_syntax.specs.View.{global_view};
ghost use Rattle.wesl_tree.specs.Translation.{unit_view};
ghost use Rattle.wesl_scope_occurrences.specs.Identified.{identified};
ghost use Rattle.wesl_scope_strip.specs.Declarations.{all};
ghost use Rattle.wesl_validate_builtins.specs.Builtins.{builtins_view};
ghost use Rattle.wesl_validate_rules.specs.Calls.{calls_in};
ghost use Rattle.wesl_validate_rules.specs.Valid.{IsFitting};
ghost use Rattle.wesl_validate_calls.specs.Made.{call_told};
ghost use Rattle.wesl_validate_calls.specs.Misfits.{MissesIn};
ghost use Rattle.wesl_validate_calls.specs.Tables.{AreTables};
ghost use Rattle.wesl_validate_calls.specs.Views.{AllPass, AreEndsIn, OneMisses, builtins_in, tables_view};

use crate::callables::Callables;
use crate::calls::{Call, calls_of};
use crate::ends::Ends;
use crate::misfit::Misfit;
use crate::tables::{Tables, tables_of};
use crate::whole::{ends_in, verdict};
use std::alloc::Global;
use wesl_scope_occurrences::Identifiers;
use wesl_tree::TranslationUnit;
use wesl_tree_names::Error;
use wesl_tree_syntax::GlobalDeclaration;
use wesl_validate_builtins::Builtins;

/// The call at a place of the list.
#[tactic(auto, using(crate::proofs::Shaping::at_itself))]
pub(crate) fn call_at(calls: &Vec<Call>, place: usize) -> Call
    requires { place < length calls.now.items }
    ensures { result ≡ get_or calls.now.items place result }
{
    calls[place]
}

fn misfit_among(
    unit: &TranslationUnit,
    callables: &Callables<'_>,
    tables: &Tables,
    ends: &Ends,
    calls: &Vec<Call>,
) -> Option<Misfit>
    requires tables { AreTables (unit_view unit.now) (tables_view tables.now) }
    requires ends { AreEndsIn tables.now (unit_view unit.now).names callables.now ends.now }
    ensures misfit { IfSome result (OneMisses unit.now callables.now (map call_told calls.now.items)) }
    ensures none { IfNone result (AllPass unit.now callables.now (map call_told calls.now.items)) }
{
    for place in 0..calls.len() {
        let call = call_at(calls, place);
        match verdict(unit, callables, tables, ends, call) {
            Some(misfit) => return Some(misfit),
            None => {}
        }
    }
    None
}

fn misfit_in(
    alloc: Global,
    unit: &TranslationUnit,
    callables: &Callables<'_>,
    tables: &Tables,
    ends: &Ends,
    declaration: &GlobalDeclaration,
) -> Result<Option<Misfit>, Error>
    requires tables { AreTables (unit_view unit.now) (tables_view tables.now) }
    requires ends { AreEndsIn tables.now (unit_view unit.now).names callables.now ends.now }
    ensures misfit { IfOk result (λ r. IfSome r (OneMisses unit.now callables.now (calls_in (before (global_view declaration.now) end)))) }
    ensures none { IfOk result (λ r. IfNone r (AllPass unit.now callables.now (calls_in (before (global_view declaration.now) end)))) }
    ensures refused { IfErr result (λ e. e ≡ error.Memory) }
{
    let calls = calls_of(alloc, declaration)?;
    Ok(misfit_among(unit, callables, tables, ends, &calls))
}

/// The same, in all declarations.
fn misfit_of(
    alloc: Global,
    unit: &TranslationUnit,
    callables: &Callables<'_>,
    tables: &Tables,
    ends: &Ends,
) -> Result<Option<(usize, Misfit)>, Error>
    requires tables { AreTables (unit_view unit.now) (tables_view tables.now) }
    requires ends { AreEndsIn tables.now (unit_view unit.now).names callables.now ends.now }
    ensures misfit { IfOk result (λ r. IfSome r (λ p. MissesIn (unit_view unit.now) (builtins_in callables.now) p.0 p.1)) }
    ensures none { IfOk result (λ r. IfNone r (IsFitting (unit_view unit.now) (builtins_in callables.now))) }
    ensures refused { IfErr result (λ e. e ≡ error.Memory) }
{
    let declarations = unit.global_declarations();
    for j in 0..declarations.len() {
        let declaration = &declarations[j];
        match misfit_in(alloc, unit, callables, tables, ends, &declaration.node)? {
            Some(misfit) => return Ok(Some((j, misfit))),
            None => {}
        }
    }
    Ok(None)
}

/// The first call that fits nothing of what its aliases end in: the number of the declaration that holds it, and what
/// is wrong with it. `found` are the identifiers of the unit. Refused for want of memory alone.
pub(crate) fn first_misfit(
    alloc: Global,
    unit: &TranslationUnit,
    found: &Identifiers<'_>,
    builtins: &Builtins,
) -> Result<Option<(usize, Misfit)>, Error>
    requires { identified found.now ≡ all (unit_view unit.now) }
    ensures misfit { IfOk result (λ r. IfSome r (λ p. MissesIn (unit_view unit.now) (builtins_view builtins.now) p.0 p.1)) }
    ensures none { IfOk result (λ r. IfNone r (IsFitting (unit_view unit.now) (builtins_view builtins.now))) }
    ensures refused { IfErr result (λ e. e ≡ error.Memory) }
{
    let callables = Callables::new(alloc, builtins)?;
    let tables = tables_of(alloc, unit, found)?;
    let ends = ends_in(alloc, unit, &callables, &tables)?;
    misfit_of(alloc, unit, &callables, &tables, &ends)
}
