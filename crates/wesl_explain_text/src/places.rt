//! Where what is told stands in files.
use serde_json::Value;
use std::alloc::{AllocError, Global};
use wesl_explain_world::{Explanation, FaultLine, PathId};
use wesl_text_lines::LineStarts;
use wesl_tree_base::Span;

/// The file of a module, and where its lines begin.
#[derive(Clone, Copy)]
pub struct ModuleFile<'p> {
    /// The file's name.
    pub name: &'p str,
    /// Where its lines begin.
    pub lines: &'p LineStarts,
}

/// Where what is told stands in files, as far as that is known: where nothing is, nothing is told of it.
#[derive(Clone, Copy)]
pub struct Places<'p> {
    /// Of each path in turn the file of its module.
    pub files: &'p [Option<ModuleFile<'p>>],
    /// Of each held declaration in turn its place.
    pub held: &'p [Option<Span>],
    /// Of each import that nothing uses its place.
    pub unused: &'p [Option<Span>],
}

impl<'p> Places<'p> {
    /// The file of the module at a path.
    pub(crate) fn file(&self, path: PathId) -> Option<ModuleFile<'p>> {
        match self.files.get(path.0) {
            Some(file) => *file,
            None => None,
        }
    }
}

/// Writes in which file and line something of a module stands.
pub(crate) fn push_file_place(
    out: &mut String,
    alloc: Global,
    before: &str,
    file: Option<ModuleFile<'_>>,
    span: Option<Span>,
) -> Result<(), AllocError> {
    let (Some(file), Some(span)) = (file, span) else {
        return Ok(());
    };
    let line = file.lines.line(span.start as usize).to_string(alloc)?;
    out.push_str(before)?;
    out.push_str(file.name)?;
    out.push_str(":")?;
    out.push_str(line.as_str())
}

/// Writes which bytes of its source something is.
fn push_bytes(out: &mut String, alloc: Global, span: Option<Span>) -> Result<(), AllocError> {
    let Some(span) = span else {
        return Ok(());
    };
    let start = span.start.to_string(alloc)?;
    let end = span.end.to_string(alloc)?;
    out.push_str(" at [")?;
    out.push_str(start.as_str())?;
    out.push_str(",")?;
    out.push_str(end.as_str())?;
    out.push_str("]")
}

/// Writes where something stands: in which line of this file, or where that is not known at which bytes of its source.
pub(crate) fn push_place(
    out: &mut String,
    alloc: Global,
    file: Option<ModuleFile<'_>>,
    span: Option<Span>,
) -> Result<(), AllocError> {
    match file {
        Some(file) => push_file_place(out, alloc, ", ", Some(file), span),
        None => push_bytes(out, alloc, span),
    }
}

/// Writes where a fault stands: in this file, if it is known, else in its source.
pub(crate) fn push_span(
    out: &mut String,
    alloc: Global,
    line: &FaultLine,
    file: Option<ModuleFile<'_>>,
) -> Result<(), AllocError> {
    let value = line.value(alloc)?;
    let span = span_of(&value);
    drop(value);
    match file {
        Some(file) => push_file_place(out, alloc, " at ", Some(file), span),
        None => push_bytes(out, alloc, span),
    }
}

/// The file of the module in which a fault stands that no module is asked for. There is one such fault at most.
pub(crate) fn file_of<'p>(
    alloc: Global,
    told: &Explanation,
    places: &Places<'p>,
    line: &FaultLine,
) -> Result<Option<ModuleFile<'p>>, AllocError> {
    let value = line.value(alloc)?;
    let file = file_at(told, places, &value);
    drop(value);
    Ok(file)
}

// The file of the module that a line tells.
fn file_at<'p>(told: &Explanation, places: &Places<'p>, line: &Value) -> Option<ModuleFile<'p>> {
    let module = line.get("module")?.as_str()?;
    for (index, path) in told.paths.iter().enumerate() {
        if path.as_str() == module {
            return places.file(PathId(index));
        }
    }
    None
}

// The bytes at which a fault stands.
fn span_of(line: &Value) -> Option<Span> {
    let span = line.get("span")?;
    Some(Span {
        start: number_at(span, 0)?,
        end: number_at(span, 1)?,
    })
}

// A number of a list.
fn number_at(list: &Value, place: usize) -> Option<u32> {
    u32::try_from(list.get(place)?.as_u64()?).ok()
}
