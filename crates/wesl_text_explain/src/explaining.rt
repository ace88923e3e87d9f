//! What is told of a link.
use crate::paths::{files_of, paths_of, told_texts};
use crate::placing::{PlacedImports, held_places, unused_imports};
use std::alloc::{AllocError, Global};
use wesl_explain_text::{Places, Shown, text_of};
use wesl_explain_world::explained;
use wesl_text_link::ReadModules;

/// What is told of the link of these modules, whose bundle this is. Refused for want of memory alone.
pub fn explanation_of(
    alloc: Global,
    modules: ReadModules<'_>,
    bundle: &str,
    shown: Shown<'_>,
) -> Result<String, AllocError> {
    let mut told = explained(alloc, bundle.as_bytes())?;
    let paths = paths_of(alloc, &told.paths)?;
    let files = files_of(alloc, modules, &paths)?;
    let held = held_places(alloc, modules, &told, &paths)?;
    let unused = unused_imports(alloc, modules, &told, &paths)?;
    let PlacedImports { imports, places } = unused;
    told.unused = imports;
    told.paths = told_texts(alloc, modules, &paths)?;
    let known = Places {
        files: &files,
        held: &held,
        unused: &places,
    };
    text_of(alloc, &told, shown, known)
}
