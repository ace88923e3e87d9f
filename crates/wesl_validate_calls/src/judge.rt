//! Whether a call fits one of the numbers to which its aliases lead.
ghost use Rattle.std.specs.Prelude.{◌≡◌, ◌==◌, ◌↔◌, map, not, true};
ghost use Rattle.std.specs.Option.{option_map};
ghost use Rattle.wesl_scope_values.specs.Values.{value_at};
ghost use Rattle.wesl_validate_calls.specs.declared.misfit.Misfit.TheVariants as misfit;
ghost use Rattle.std.specs.List.{list_any};
ghost use Rattle.wesl_scope_strip.specs.Marks.{mark_at};
ghost use Rattle.wesl_tree_syntax.specs.Unit.{name_in};
ghost use Rattle.wesl_validate_rules.specs.Calls.{is_plain_alias};
ghost use Rattle.wesl_validate_rules.specs.Graphs.{graph_view, edges_at, IsClosed};
ghost use Rattle.wesl_validate_calls.specs.Ends.{AreEnded, FitsAt, IsJudged, IsLeastEnd, is_builtin_at, is_found};
ghost use Rattle.wesl_validate_calls.specs.Made.{call_told};
ghost use Rattle.wesl_validate_calls.specs.Judged.{first_some, count_at, ends_at, count_of};
ghost use Rattle.wesl_validate_calls.specs.Tables.{shape_at};
ghost use Rattle.wesl_validate_calls.specs.Views.{AreEndsIn, builtins_in, ends_view, shape_view, tables_view};

use crate::callables::Callables;
use crate::calls::Call;
use crate::ends::Ends;
use crate::misfit::Misfit;
use crate::shape::{Shape, count_of, is_plain_alias, shape_at};
use crate::tables::Tables;
use wesl_scope_values::value_of;
use wesl_tree_names::{Ident, Names};

/// The name of a number, and the empty text where the table has none.
fn name_of(names: &Names, number: usize) -> &str
    ensures { result.now ≡ name_in names.now number }
{
    if number < names.len() {
        names.name(Ident(number))
    } else {
        ""
    }
}

/// Whether a binder has the number.
fn is_bound(bound: &Vec<bool>, number: usize) -> bool
    ensures { result ≡ mark_at bound.now.items number }
{
    number < bound.len() && bound[number]
}

/// Whether no binder has the number, and its name is that of a function or a constructor that is built in.
pub(crate) fn is_builtin(
    tables: &Tables,
    names: &Names,
    callables: &Callables<'_>,
    number: usize,
) -> bool
    ensures { result ≡ is_builtin_at (tables_view tables.now) names.now (builtins_in callables.now) number }
{
    !is_bound(&tables.bound, number) && callables.has(name_of(names, number))
}

/// How many arguments the first of these declarations takes that is a function or a structure.
#[tactic(auto, using(crate::proofs::Searching::some_here, crate::proofs::Searching::some_next))]
fn first_count(shapes: &Vec<Shape>, declarers: &Vec<usize>) -> Option<usize>
    ensures { result ≡ first_some (λ j. count_of (shape_at (map shape_view shapes.now.items) j)) declarers.now.items }
{
    for declaration in declarers {
        match count_of(shape_at(shapes, *declaration)) {
            Some(count) => return Some(count),
            None => {}
        }
    }
    None
}

pub(crate) fn count_at(tables: &Tables, number: usize) -> Option<usize>
    ensures { result ≡ count_at (tables_view tables.now) number }
{
    match tables.declarers.get(number) {
        None => None,
        Some(declarers) => first_count(&tables.shapes, declarers),
    }
}

/// Whether there is no declaration, or one that is no alias of a plain name.
#[tactic(auto, using(crate::proofs::Searching::any_here, crate::proofs::Searching::any_next))]
fn one_ends(shapes: &Vec<Shape>, declarers: &Vec<usize>) -> bool
    ensures { result ≡ list_any (λ j. not (is_plain_alias (shape_at (map shape_view shapes.now.items) j))) declarers.now.items }
{
    for declaration in declarers {
        if !is_plain_alias(shape_at(shapes, *declaration)) {
            return true;
        }
    }
    false
}

/// Whether aliases end at a number: it has no declaration, or one that is no alias of a plain name.
pub(crate) fn ends_at(tables: &Tables, number: usize) -> bool
    ensures { result ≡ ends_at (tables_view tables.now) number }
{
    match tables.declarers.get(number) {
        None => true,
        Some(declarers) => declarers.is_empty() || one_ends(&tables.shapes, declarers),
    }
}

/// Whether a node leads to another.
fn leads(graph: &Vec<Vec<usize>>, from: usize, to: usize) -> bool
    ensures { result ≡ list_any (λ t. t == to) (edges_at (graph_view graph.now.items) from) }
{
    match graph.get(from) {
        None => false,
        Some(targets) => targets.contains(&to),
    }
}

/// Whether a call is found among what the tables say that it fits.
fn is_found(
    tables: &Tables,
    ends: &Ends,
    names: &Names,
    callables: &Callables<'_>,
    call: Call,
) -> bool
    ensures { result ≡ is_found (tables_view tables.now) names.now (builtins_in callables.now) (ends_view ends.now) (call_told call) }
{
    leads(&ends.taken, call.callee, call.arguments)
        || (is_bound(&ends.any_count, call.callee)
            || is_builtin(tables, names, callables, call.callee))
}

/// Whether the aliases of a call lead to what accepts so many arguments: a declaration takes them, or what is built in and
/// can be called.
fn fits(tables: &Tables, ends: &Ends, names: &Names, callables: &Callables<'_>, call: Call) -> bool
    requires closed { IsClosed (tables_view tables.now).aliases }
    requires ends { AreEndsIn tables.now names.now callables.now ends.now }
    ensures { (result ≡ true) ↔ FitsAt (tables_view tables.now) names.now (builtins_in callables.now) (call_told call) }
{
    is_found(tables, ends, names, callables, call)
}

/// The least number at which the aliases of a number end, if they end anywhere.
fn end_of(tables: &Tables, ended: &Vec<Option<usize>>, number: usize) -> Option<usize>
    requires closed { IsClosed (tables_view tables.now).aliases }
    requires ended { AreEnded (tables_view tables.now) ended.now.items }
    ensures { IsLeastEnd (tables_view tables.now).aliases (ends_at (tables_view tables.now)) number result }
{
    let count = tables.aliases.len();
    if number < count {
        return value_of(ended, number);
    }
    if ends_at(tables, number) {
        Some(number)
    } else {
        None
    }
}

/// The misfit of a call of so many arguments that leads to a function or a structure of this number.
fn miscounted(counts: &Vec<Option<usize>>, number: usize, arguments: usize) -> Option<Misfit>
    ensures { result ≡ option_map (λ k. misfit.ParamCount number k arguments) (value_at counts.now.items number) }
{
    match value_of(counts, number) {
        None => None,
        Some(expected) => Some(Misfit::ParamCount {
            number,
            expected,
            got: arguments,
        }),
    }
}

/// The misfit of a call whose aliases end at this number, if they end anywhere.
fn not_callable(end: Option<usize>) -> Option<Misfit>
    ensures { result ≡ option_map (λ e. misfit.NotCallable e) end }
{
    match end {
        None => None,
        Some(number) => Some(Misfit::NotCallable { number }),
    }
}

/// Whether a call fits what its aliases lead to, and else what is wrong. Where they end nowhere, nothing is.
pub(crate) fn judged(
    tables: &Tables,
    ends: &Ends,
    names: &Names,
    callables: &Callables<'_>,
    call: Call,
) -> Option<Misfit>
    requires closed { IsClosed (tables_view tables.now).aliases }
    requires ends { AreEndsIn tables.now names.now callables.now ends.now }
    ensures { IsJudged (tables_view tables.now) names.now (builtins_in callables.now) (call_told call) result }
{
    if fits(tables, ends, names, callables, call) {
        return None;
    }
    match value_of(&ends.counted, call.callee) {
        None => not_callable(end_of(tables, &ends.ended, call.callee)),
        Some(number) => miscounted(&ends.counts, number, call.arguments),
    }
}
