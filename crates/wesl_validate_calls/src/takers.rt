//! Which names take how many arguments.
ghost use Rattle.std.specs.Prelude.{map, IfOk};
ghost use Rattle.wesl_validate_rules.specs.Graphs.{graph_view};
ghost use Rattle.wesl_validate_calls.specs.Ends.{AddsTaker, AddsTakers, LeadToTakers};
ghost use Rattle.wesl_validate_calls.specs.Views.{shape_view, tables_view};

use crate::shape::{Shape, shape_at};
use crate::tables::Tables;
use std::alloc::{AllocError, Global};
use wesl_scope_graph::add_edge;

/// Adds a number to those that take so many arguments as a declaration of this shape.
fn add_taker(
    alloc: Global,
    takers: &mut Vec<Vec<usize>>,
    shape: Shape,
    number: usize,
) -> Result<(), AllocError>
    ensures { IfOk result (λ _. AddsTaker (shape_view shape) number (graph_view takers.old.items) (graph_view takers.new.items)) }
{
    match shape {
        Shape::Function(count) => {
            add_edge(alloc, takers, count, number)?;
            Ok(())
        }
        Shape::Struct(count) => {
            add_edge(alloc, takers, count, number)?;
            add_edge(alloc, takers, 0, number)?;
            Ok(())
        }
        Shape::OpenAlias => Ok(()),
        Shape::Alias(_) => Ok(()),
        Shape::Other => Ok(()),
    }
}

/// The same, of each of these declarations of the number.
fn add_takers(
    alloc: Global,
    takers: &mut Vec<Vec<usize>>,
    shapes: &Vec<Shape>,
    declarers: &Vec<usize>,
    number: usize,
) -> Result<(), AllocError>
    ensures { IfOk result (λ _. AddsTakers (map shape_view shapes.now.items) declarers.now.items number (graph_view takers.old.items) (graph_view takers.new.items)) }
{
    for declaration in declarers {
        add_taker(alloc, takers, shape_at(shapes, *declaration), number)?;
    }
    Ok(())
}

/// Of each count of arguments the numbers of functions and structures that take it. Refused for want of memory alone.
pub(crate) fn takers_of(alloc: Global, tables: &Tables) -> Result<Vec<Vec<usize>>, AllocError>
    ensures { IfOk result (λ takers. LeadToTakers (tables_view tables.now) (graph_view takers.items)) }
{
    let mut takers = Vec::new(alloc);
    for number in 0..tables.declarers.len() {
        add_takers(
            alloc,
            &mut takers,
            &tables.shapes,
            &tables.declarers[number],
            number,
        )?;
    }
    Ok(takers)
}
