//! Tables of what a module's numbers are to calls.
ghost use Rattle.std.specs.Prelude.{◌≡◌, map, IfOk};
ghost use Rattle.wesl_scope_occurrences.specs.Identified.{identified};
ghost use Rattle.wesl_scope_occurrences.specs.Views.{occurrence_view};
ghost use Rattle.wesl_scope_strip.specs.Declarations.{all};
ghost use Rattle.wesl_validate_rules.specs.Graphs.{graph_view, IsClosed};
ghost use Rattle.wesl_tree.specs.Translation.{unit_view};
ghost use Rattle.wesl_validate_calls.specs.Tables.{AddsEdges, AreTables, alias_target, declaration_named, edge_from, target_of};
ghost use Rattle.wesl_validate_calls.specs.Views.{AreEdges, shape_view, tables_view};

use crate::numbers::bound_numbers;
use crate::shape::{Shape, shape_at, shapes_of};
use std::alloc::{AllocError, Global};
use wesl_scope_graph::add_edge;
use wesl_scope_occurrences::{Identifiers, Occurrence, Standing};
use wesl_tree::TranslationUnit;

/// What a module's numbers are to calls.
#[derive(Drop)]
pub struct Tables {
    /// of each declaration what it is to a call
    pub(crate) shapes: Vec<Shape>,
    /// of each number the declarations that declare it
    pub(crate) declarers: Vec<Vec<usize>>,
    /// of each number the names for which its aliases stand
    pub(crate) aliases: Vec<Vec<usize>>,
    /// of each number whether a binder has it
    pub(crate) bound: Vec<bool>,
}

/// The declaration of which it is the name, if it is the name of one.
fn declaration_named(occurrence: &Occurrence<'_>) -> Option<usize>
    ensures { result ≡ declaration_named (occurrence_view occurrence.now) }
{
    match occurrence.standing {
        Standing::ModuleName => occurrence.declaration,
        _ => None,
    }
}

/// The name for which a declaration stands, if it is an alias of a plain one.
fn target_of(shape: Shape) -> Option<usize>
    ensures { result ≡ target_of (shape_view shape) }
{
    match shape {
        Shape::Alias(target) => Some(target),
        _ => None,
    }
}

/// The same, of the declaration of which it is the name.
fn alias_target(shapes: &Vec<Shape>, occurrence: &Occurrence<'_>) -> Option<usize>
    ensures { result ≡ alias_target (map shape_view shapes.now.items) (occurrence_view occurrence.now) }
{
    match declaration_named(occurrence) {
        None => None,
        Some(declaration) => target_of(shape_at(shapes, declaration)),
    }
}

/// Adds an edge, if there is a target.
fn add_target(
    alloc: Global,
    graph: &mut Vec<Vec<usize>>,
    from: usize,
    target: Option<usize>,
) -> Result<(), AllocError>
    ensures added { IfOk result (λ _. AddsEdges (edge_from from target) (graph_view graph.old.items) (graph_view graph.new.items)) }
    ensures closed { IfOk result (λ _. IsClosed (graph_view graph.old.items) → IsClosed (graph_view graph.new.items)) }
{
    match target {
        None => Ok(()),
        Some(to) => add_edge(alloc, graph, from, to),
    }
}

/// Of each number the declarations that declare it.
fn declarers_of(alloc: Global, found: &Identifiers<'_>) -> Result<Vec<Vec<usize>>, AllocError>
    ensures { IfOk result (λ graph. AreEdges declaration_named found.now graph.items) }
{
    let mut declarers = Vec::new(alloc);
    for occurrence in &found.all {
        let declaration = declaration_named(occurrence);
        add_target(alloc, &mut declarers, occurrence.ident.0, declaration)?;
    }
    Ok(declarers)
}

/// Of each number the names for which its aliases stand.
fn aliases_of(
    alloc: Global,
    shapes: &Vec<Shape>,
    found: &Identifiers<'_>,
) -> Result<Vec<Vec<usize>>, AllocError>
    ensures edges { IfOk result (λ graph. AreEdges (alias_target (map shape_view shapes.now.items)) found.now graph.items) }
    ensures closed { IfOk result (λ graph. IsClosed (graph_view graph.items)) }
{
    let mut aliases = Vec::new(alloc);
    for occurrence in &found.all {
        let target = alias_target(shapes, occurrence);
        add_target(alloc, &mut aliases, occurrence.ident.0, target)?;
    }
    Ok(aliases)
}

/// What the numbers of a module are to calls, where `found` are its identifiers. Refused for want of memory alone.
pub fn tables_of(
    alloc: Global,
    unit: &TranslationUnit,
    found: &Identifiers<'_>,
) -> Result<Tables, AllocError>
    requires { identified found.now ≡ all (unit_view unit.now) }
    ensures { IfOk result (λ tables. AreTables (unit_view unit.now) (tables_view tables)) }
{
    let shapes = shapes_of(alloc, unit.global_declarations())?;
    let declarers = declarers_of(alloc, found)?;
    let aliases = aliases_of(alloc, &shapes, found)?;
    let bound = bound_numbers(alloc, found)?;
    Ok(Tables {
        shapes,
        declarers,
        aliases,
        bound,
    })
}
