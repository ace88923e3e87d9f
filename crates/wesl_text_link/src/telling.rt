//! The lines that tell a fault: `FILE:LINE:COLUMN: error: TEXT`, and the line of the source below.
use crate::modules::{ProjectModules, ReadModule};
use crate::places::{Found, found_in};
use crate::searching::{Sighting, binders, likely_places};
use crate::texts::{Cause, text_of};
use std::alloc::{AllocError, Global};
use wesl_text_homes::Libraries;
use wesl_text_lines::place_of;
use wesl_text_project::{ProjectFault, line_at};
use wesl_tree::{Diagnostic, Error, ModulePath, ResolveError, Span, ValidateError};

impl<'r, R> ProjectModules<'r, R> {
    /// What is told of a diagnostic.
    pub(crate) fn told(&self, alloc: Global, diagnostic: &Diagnostic) -> ProjectFault {
        if diagnostic.error.is_memory() {
            return ProjectFault::Memory;
        }
        match self.lines_of(alloc, found_in(diagnostic)) {
            Ok(lines) => ProjectFault::Module(lines),
            Err(_) => ProjectFault::Memory,
        }
    }

    /// What is told of the refusal of a module.
    pub(crate) fn told_of_refusal(&self, alloc: Global, refusal: ResolveError) -> ProjectFault {
        self.told(alloc, &Diagnostic::of(Error::Resolve(refusal)))
    }

    // The lines of a fault.
    fn lines_of(&self, alloc: Global, found: Found<'_>) -> Result<String, AllocError> {
        let text = text_of(alloc, self.libraries, found.cause)?;
        let mut lines = String::new(alloc);
        if let (Some(module), Some(span)) = (self.module_at(found.module), found.span) {
            add_place(alloc, &mut lines, "error", module, span, text.as_str())?;
            return Ok(lines);
        }
        let places = likely_places(alloc, self.libraries, &self.read, found.module, found.cause)?;
        if places.is_empty() {
            self.add_bare(&mut lines, found.module, text.as_str())?;
            return Ok(lines);
        }
        add_places(alloc, &mut lines, &places, text.as_str())?;
        if let Cause::Validity(ValidateError::UndefinedSymbol(name)) = found.cause {
            let others = binders(alloc, self.libraries, &self.read, name.as_str())?;
            add_binders(alloc, self.libraries, &mut lines, &others)?;
        }
        Ok(lines)
    }

    // The module at a path, if it was read.
    fn module_at(&self, path: Option<&ModulePath>) -> Option<&ReadModule> {
        match path {
            Some(path) => self.read.get(path),
            None => None,
        }
    }

    // Adds a fault without a place.
    fn add_bare(
        &self,
        lines: &mut String,
        path: Option<&ModulePath>,
        text: &str,
    ) -> Result<(), AllocError> {
        let file = match self.module_at(path) {
            Some(module) => module.file.as_str(),
            None => self.layout.project.as_str(),
        };
        lines.push_str(file)?;
        lines.push_str(": error: ")?;
        lines.push_str(text)
    }
}

/// The line that tells why a module has no unit. Refused for want of memory alone.
pub fn refusal_line(
    alloc: Global,
    libraries: &Libraries,
    module: &ReadModule,
    refusal: ResolveError,
) -> Result<String, AllocError> {
    let told = Diagnostic::of(Error::Resolve(refusal));
    if told.error.is_memory() {
        return Err(AllocError);
    }
    let found = found_in(&told);
    let text = text_of(alloc, libraries, found.cause)?;
    let start = match found.span {
        Some(span) => span.start as usize,
        None => 0,
    };
    let place = place_of(module.text.as_str(), start);
    let file = module.file.as_str();
    let line = place.line;
    let column = place.column;
    format!(in alloc; "{file}:{line}:{column}: error: {text}")
}

// Adds a line with a place, and of an error the line of the source.
pub(crate) fn add_place(
    alloc: Global,
    lines: &mut String,
    kind: &str,
    module: &ReadModule,
    span: Span,
    text: &str,
) -> Result<(), AllocError> {
    if !lines.is_empty() {
        lines.push('\n')?;
    }
    let source = module.text.as_str();
    let place = place_of(source, span.start as usize);
    let file = module.file.as_str();
    let line = place.line;
    let column = place.column;
    let told = format!(in alloc; "{file}:{line}:{column}: {kind}: {text}")?;
    lines.push_str(told.as_str())?;
    if kind == "error" {
        let shown = line_at(alloc, source, span.start as usize, span.end as usize)?;
        add_shown(lines, shown.as_str())?;
    }
    Ok(())
}

// Adds the line of a source, if it is shown.
fn add_shown(lines: &mut String, shown: &str) -> Result<(), AllocError> {
    if !shown.is_empty() {
        lines.push('\n')?;
        lines.push_str(shown)?;
    }
    Ok(())
}

// Adds the likely places of a fault.
fn add_places(
    alloc: Global,
    lines: &mut String,
    places: &[Sighting<'_>],
    text: &str,
) -> Result<(), AllocError> {
    for place in places {
        if lines.is_empty() {
            add_place(alloc, lines, "error", place.module, place.span, text)?;
        } else {
            add_place(alloc, lines, "note", place.module, place.span, "and here")?;
        }
    }
    Ok(())
}

// Adds where modules have something of a name that is not imported.
fn add_binders(
    alloc: Global,
    libraries: &Libraries,
    lines: &mut String,
    places: &[Sighting<'_>],
) -> Result<(), AllocError> {
    for place in places {
        let path = libraries.told_path(alloc, place.path)?;
        let text = format!(in alloc;
            "`{path}` has something of this name, which is not imported there"
        )?;
        add_place(
            alloc,
            lines,
            "note",
            place.module,
            place.span,
            text.as_str(),
        )?;
    }
    Ok(())
}
