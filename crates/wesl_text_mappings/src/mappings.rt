//! The text of mappings: a line for each line of the generated text, and in it a segment for each mapping, as moves from those before.
use crate::positions::Position;
use crate::vlq::push_move;
use std::alloc::{AllocError, Global};

/// That a place of a generated text stands for a place of a source.
#[derive(Clone, Copy)]
pub struct Mapping {
    /// The place in the generated text.
    pub generated: Position,
    /// The number of the source.
    pub source: usize,
    /// The place in the source.
    pub original: Position,
    /// The number of the name that stands there in the source, where the map tells one.
    pub name: Option<usize>,
}

// What the fields of the next segment are told from.
#[derive(Clone, Copy)]
struct Before {
    generated: Position,
    source: usize,
    original: Position,
    name: usize,
}

/// The text of mappings, which stand in the order of their places in the generated text.
pub fn mappings_text(alloc: Global, mappings: &[Mapping]) -> Result<String, AllocError> {
    let mut text = String::new(alloc);
    let nowhere = Position { line: 0, column: 0 };
    let mut before = Before {
        generated: nowhere,
        source: 0,
        original: nowhere,
        name: 0,
    };
    for mapping in mappings {
        push_mapping(&mut text, before, mapping)?;
        before = behind(before, mapping);
    }
    Ok(text)
}

// What the fields behind a mapping are told from.
fn behind(before: Before, mapping: &Mapping) -> Before {
    Before {
        generated: mapping.generated,
        source: mapping.source,
        original: mapping.original,
        name: mapping.name.unwrap_or(before.name),
    }
}

// Adds a mapping.
fn push_mapping(text: &mut String, before: Before, mapping: &Mapping) -> Result<(), AllocError> {
    let line = before.generated.line;
    let place = mapping.generated;
    push_separators(text, line, place.line)?;
    let column = if place.line > line {
        0
    } else {
        before.generated.column
    };
    push_move(text, column, place.column)?;
    push_move(text, before.source, mapping.source)?;
    push_move(text, before.original.line, mapping.original.line)?;
    push_move(text, before.original.column, mapping.original.column)?;
    match mapping.name {
        Some(name) => push_move(text, before.name, name),
        None => Ok(()),
    }
}

// Adds what parts a segment from what is before it: the ends of lines, or a comma in a line that has segments.
fn push_separators(text: &mut String, from: usize, to: usize) -> Result<(), AllocError> {
    if from >= to && !text.is_empty() && !text.ends_with(';') {
        text.push(',')?;
    }
    for _line in from..to {
        text.push(';')?;
    }
    Ok(())
}
