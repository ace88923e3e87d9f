//! Where the aliases of calls lead.
ghost use Rattle.std.specs.Prelude.{◌≡◌, ◌≤◌, ℕ, true, length, map, IfOk};
ghost use Rattle.std.specs.List.{list_any};
ghost use Rattle.wesl_scope_values.specs.Values.{IsTurned, value_at};
ghost use Rattle.wesl_validate_rules.specs.Graphs.{graph_view, IsClosed};
ghost use Rattle.wesl_validate_calls.specs.Ends.{AddsItself, AreOpen, AreOpened, IsEnder, LeadToThemselves, counts_at, is_open, is_open_at, opens_at};
ghost use Rattle.wesl_validate_calls.specs.Judged.{count_at};
ghost use Rattle.wesl_validate_calls.specs.Tables.{shape_at};
ghost use Rattle.wesl_validate_calls.specs.Views.{AreEndsIn, builtins_in, shape_view, tables_view};

use crate::callables::Callables;
use crate::judge::{count_at, ends_at, is_builtin};
use crate::shape::{Shape, is_open, shape_at};
use crate::tables::Tables;
use crate::takers::takers_of;
use std::alloc::{AllocError, Global};
use wesl_scope_graph::{add_edge, reach};
use wesl_scope_values::{all_values, least_values, turned};
use wesl_tree_names::Names;

/// Of each number where its aliases lead, and so what a call of it may be a call of.
#[derive(Drop)]
pub struct Ends {
    /// of each number the counts of arguments that functions and structures take to which its aliases lead
    pub(crate) taken: Vec<Vec<usize>>,
    /// of each number whether its aliases lead to what takes any count
    pub(crate) any_count: Vec<bool>,
    /// of each number how many arguments its first function or structure takes
    pub(crate) counts: Vec<Option<usize>>,
    /// of each number the least to which its aliases lead that has a function or a structure
    pub(crate) counted: Vec<Option<usize>>,
    /// of each number the least at which its aliases end
    pub(crate) ended: Vec<Option<usize>>,
}

/// Adds an edge from a number to itself, if it is one of those.
fn add_itself(
    alloc: Global,
    told: &mut Vec<Vec<usize>>,
    number: usize,
    is_one: bool,
) -> Result<(), AllocError>
    ensures { IfOk result (λ _. AddsItself number is_one (graph_view told.old.items) (graph_view told.new.items)) }
{
    if !is_one {
        return Ok(());
    }
    add_edge(alloc, told, number, number)?;
    Ok(())
}

/// Of each number how many arguments its first function or structure takes.
fn counts_of(alloc: Global, tables: &Tables) -> Result<Vec<Option<usize>>, AllocError>
    ensures { IfOk result (λ counts. (e : ℕ) → value_at counts.items e ≡ count_at (tables_view tables.now) e) }
{
    let mut counts = Vec::new(alloc);
    for number in 0..tables.declarers.len() {
        counts.push(count_at(tables, number))?;
    }
    Ok(counts)
}

/// Whether a number has a function or a structure.
fn counts_at(tables: &Tables, number: usize) -> bool
    ensures { result ≡ counts_at (tables_view tables.now) number }
{
    match count_at(tables, number) {
        None => false,
        Some(_) => true,
    }
}

/// The numbers that have a function or a structure, each led to itself.
fn counting(alloc: Global, tables: &Tables) -> Result<Vec<Vec<usize>>, AllocError>
    ensures { IfOk result (λ told. LeadToThemselves (λ e. counts_at (tables_view tables.now) e ≡ true) (graph_view told.items)) }
{
    let mut told = Vec::new(alloc);
    for number in 0..tables.declarers.len() {
        let is_one = counts_at(tables, number);
        add_itself(alloc, &mut told, number, is_one)?;
    }
    Ok(told)
}

/// The numbers with aliases, or to which these lead, at which aliases end, each led to itself.
fn ending(alloc: Global, tables: &Tables) -> Result<Vec<Vec<usize>>, AllocError>
    ensures { IfOk result (λ told. LeadToThemselves (IsEnder (tables_view tables.now)) (graph_view told.items)) }
{
    let mut told = Vec::new(alloc);
    for number in 0..tables.aliases.len() {
        let is_one = ends_at(tables, number);
        add_itself(alloc, &mut told, number, is_one)?;
    }
    Ok(told)
}

/// Whether one of these declarations takes any count of arguments.
#[tactic(auto, using(crate::proofs::Searching::any_here, crate::proofs::Searching::any_next))]
fn one_opens(shapes: &Vec<Shape>, declarers: &Vec<usize>) -> bool
    ensures { result ≡ list_any (λ j. is_open (shape_at (map shape_view shapes.now.items) j)) declarers.now.items }
{
    for declaration in declarers {
        if is_open(shape_at(shapes, *declaration)) {
            return true;
        }
    }
    false
}

fn opens_at(tables: &Tables, number: usize) -> bool
    ensures { result ≡ opens_at (tables_view tables.now) number }
{
    match tables.declarers.get(number) {
        None => false,
        Some(declarers) => one_opens(&tables.shapes, declarers),
    }
}

/// Whether a number takes any count of arguments: an alias of a type with a path or with template arguments declares it, or
/// it is built in.
fn opens(tables: &Tables, names: &Names, callables: &Callables<'_>, number: usize) -> bool
    ensures { result ≡ is_open_at (tables_view tables.now) names.now (builtins_in callables.now) number }
{
    opens_at(tables, number) || is_builtin(tables, names, callables, number)
}

/// How many numbers have declarations or aliases, or are led to by these.
fn number_count(tables: &Tables) -> usize
    ensures declared { length tables.now.declarers.items ≤ result }
    ensures aliased { length tables.now.aliases.items ≤ result }
{
    if tables.declarers.len() < tables.aliases.len() {
        tables.aliases.len()
    } else {
        tables.declarers.len()
    }
}

/// Of each number with a declaration, with aliases, or to which these lead whether it takes any count of arguments.
fn open_numbers(
    alloc: Global,
    tables: &Tables,
    names: &Names,
    callables: &Callables<'_>,
) -> Result<Vec<bool>, AllocError>
    ensures { IfOk result (λ marks. AreOpen (tables_view tables.now) names.now (builtins_in callables.now) marks.items) }
{
    let mut marks = Vec::new(alloc);
    for number in 0..number_count(tables) {
        let is_open = opens(tables, names, callables, number);
        marks.push(is_open)?;
    }
    Ok(marks)
}

/// Of each of these numbers whether its aliases lead to what takes any count of arguments.
fn opened(
    alloc: Global,
    tables: &Tables,
    names: &Names,
    callables: &Callables<'_>,
    back: &[Vec<usize>],
) -> Result<Vec<bool>, AllocError>
    requires closed { IsClosed (tables_view tables.now).aliases }
    requires back { IsTurned (tables_view tables.now).aliases (graph_view back.now) }
    ensures { IfOk result (λ marks. AreOpened (tables_view tables.now) names.now (builtins_in callables.now) marks.items) }
{
    let mut marks = open_numbers(alloc, tables, names, callables)?;
    reach(alloc, back, &mut marks)?;
    Ok(marks)
}

/// Where the aliases of each number lead. It goes over declarations and aliases once, and for each count of arguments over
/// the aliases that lead to what takes it. Refused for want of memory alone.
pub(crate) fn ends_of(
    alloc: Global,
    tables: &Tables,
    names: &Names,
    callables: &Callables<'_>,
) -> Result<Ends, AllocError>
    requires { IsClosed (tables_view tables.now).aliases }
    ensures { IfOk result (λ ends. AreEndsIn tables.now names.now callables.now ends) }
{
    let back = turned(alloc, &tables.aliases)?;
    let takers = takers_of(alloc, tables)?;
    let taken = all_values(alloc, &back, &takers, tables.declarers.len())?;
    let counts = counts_of(alloc, tables)?;
    let counters = counting(alloc, tables)?;
    let counted = least_values(alloc, &back, &counters)?;
    let enders = ending(alloc, tables)?;
    let ended = least_values(alloc, &back, &enders)?;
    let any_count = opened(alloc, tables, names, callables, &back)?;
    Ok(Ends {
        taken,
        any_count,
        counts,
        counted,
        ended,
    })
}
