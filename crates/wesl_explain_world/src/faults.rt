//! Why a bundle is refused.
ghost use Rattle.std.specs.Prelude.{◌≡◌, false};
ghost use Rattle.wesl_tree_names.specs.Path.{is_relative};

use crate::explanation::{Fault, FaultLine};
use crate::sources::Sources;
use std::alloc::{AllocError, Global};
use std::str::from_utf8;
use wesl_cond::Features;
use wesl_cond_faults::faults;
use wesl_program::{Refusal, refusal_line};
use wesl_tree::{Diagnostic, ModulePath, TranslationUnit};

/// The text of a diagnostic for a person.
fn text_of(alloc: Global, diagnostic: &Diagnostic) -> Result<String, AllocError> {
    format!(in alloc; "{diagnostic}")
}

/// The line of a diagnostic, which is let go.
fn line_of(alloc: Global, diagnostic: Diagnostic) -> Result<String, AllocError> {
    let line = refusal_line(
        alloc,
        Refusal {
            diagnostic,
            is_placed: true,
        },
    );
    match from_utf8(line.as_bytes()) {
        Ok(text) => String::from_str(alloc, text),
        Err(_) => Err(AllocError),
    }
}

/// What the line of a diagnostic tells.
pub fn fault_line_of(alloc: Global, mut diagnostic: Diagnostic) -> Result<FaultLine, AllocError> {
    let text = text_of(alloc, &diagnostic)?;
    let declaration = diagnostic.declaration.take();
    let line = line_of(alloc, diagnostic)?;
    Ok(FaultLine {
        line,
        declaration,
        text,
    })
}

/// A fault of which its line is told alone.
pub fn fault_of(alloc: Global, diagnostic: Diagnostic) -> Result<Fault, AllocError> {
    Ok(Fault {
        line: fault_line_of(alloc, diagnostic)?,
        link: None,
        conditions: Vec::new(alloc),
        near_path: None,
        named_module: None,
    })
}

/// The faults of the conditions of a unit, without the module that they are in.
fn faults_in(
    alloc: Global,
    unit: &TranslationUnit,
    features: &Features,
) -> Result<Vec<Diagnostic>, AllocError> {
    faults(alloc, unit, features).ok().ok_or(AllocError)
}

/// The lines of faults that stand in a module.
fn lines_in(
    alloc: Global,
    path: &ModulePath,
    found: Vec<Diagnostic>,
) -> Result<Vec<FaultLine>, AllocError> {
    let mut lines = Vec::with_capacity(alloc, found.len())?;
    for diagnostic in found {
        let mut placed = diagnostic;
        placed.module = Some(path.try_clone(alloc).ok().ok_or(AllocError)?);
        lines.push(fault_line_of(alloc, placed)?)?;
    }
    Ok(lines)
}

/// The faults of the conditions of the module at a path: none where it is not there, or no condition is judged.
pub fn condition_faults(
    alloc: Global,
    sources: &mut Sources<'_>,
    path: &ModulePath,
) -> Result<Vec<FaultLine>, AllocError> {
    if path.is_relative() {
        return Ok(Vec::new(alloc));
    }
    let Some(unit) = sources.unjudged(alloc, path).ok() else {
        return Ok(Vec::new(alloc));
    };
    let Some(features) = &sources.features else {
        return Ok(Vec::new(alloc));
    };
    let found = faults_in(alloc, &unit, features)?;
    lines_in(alloc, path, found)
}
