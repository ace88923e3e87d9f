//! The likely places of a fault that tells none.
use crate::asking::{At, Wanted, places_in};
use crate::modules::ReadModule;
use crate::texts::Cause;
use indexmap::IndexMap;
use std::alloc::{AllocError, Global};
use wesl_text::read_unit;
use wesl_text_homes::Libraries;
use wesl_tree::{ImportError, ModulePath, ResolveError, Span, ValidateError};

// How many places are told.
const MOST_PLACES: usize = 5;

/// A place in a module that was read.
#[derive(Clone, Copy)]
pub(crate) struct Sighting<'m> {
    pub(crate) path: &'m ModulePath,
    pub(crate) module: &'m ReadModule,
    pub(crate) span: Span,
}

/// The likely places of a fault, the first few. Its paths are those of a link.
pub(crate) fn likely_places<'m>(
    alloc: Global,
    libraries: &Libraries,
    read: &'m IndexMap<ModulePath, ReadModule>,
    home: Option<&ModulePath>,
    cause: Cause<'_>,
) -> Result<Vec<Sighting<'m>>, AllocError> {
    match cause {
        Cause::Import(ImportError::MissingDecl(path, name)) => {
            askers(alloc, libraries, read, path, Some(name.as_str()))
        }
        Cause::Import(ImportError::Private(name, path)) => {
            askers(alloc, libraries, read, path, Some(name.as_str()))
        }
        Cause::Refusal(ResolveError::ModuleNotFound(path, _)) => {
            askers(alloc, libraries, read, path, None)
        }
        Cause::Import(ImportError::DuplicateSymbol(name)) => {
            let among = match home {
                Some(path) => Among::One(path),
                None => Among::Twice,
            };
            let wanted = Wanted::Binder(name.as_str());
            sightings(alloc, libraries, read, wanted, among)
        }
        Cause::Import(ImportError::AmbiguousSymbol(name)) => {
            let wanted = Wanted::Binder(name.as_str());
            sightings(alloc, libraries, read, wanted, Among::Twice)
        }
        Cause::Validity(ValidateError::UndefinedSymbol(name)) => {
            let name = name.as_str();
            let wanted = Wanted::Name(name);
            sightings(alloc, libraries, read, wanted, Among::Without(name))
        }
        _ => Ok(Vec::new(alloc)),
    }
}

// Where modules ask for an item of the module at a path of a link, or without one for any item of it.
fn askers<'m>(
    alloc: Global,
    libraries: &Libraries,
    read: &'m IndexMap<ModulePath, ReadModule>,
    path: &ModulePath,
    item: Option<&str>,
) -> Result<Vec<Sighting<'m>>, AllocError> {
    let told = libraries.told_path(alloc, path)?;
    let home = libraries.linked_path(alloc, &told)?;
    let wanted = Wanted::Item(&home, item);
    sightings(alloc, libraries, read, wanted, Among::All)
}

/// Where modules have something of a name.
pub(crate) fn binders<'m>(
    alloc: Global,
    libraries: &Libraries,
    read: &'m IndexMap<ModulePath, ReadModule>,
    name: &str,
) -> Result<Vec<Sighting<'m>>, AllocError> {
    sightings(alloc, libraries, read, Wanted::Binder(name), Among::All)
}

// In which modules places are looked for.
#[derive(Clone, Copy)]
enum Among<'w> {
    All,
    // in this one
    One(&'w ModulePath),
    // in those with two places and more
    Twice,
    // in those in which nothing binds this name
    Without(&'w str),
}

// The places in the modules that were read, the first few.
fn sightings<'m>(
    alloc: Global,
    libraries: &Libraries,
    read: &'m IndexMap<ModulePath, ReadModule>,
    wanted: Wanted<'_>,
    among: Among<'_>,
) -> Result<Vec<Sighting<'m>>, AllocError> {
    let mut found = Vec::new(alloc);
    for (path, module) in read.iter() {
        if found.len() < MOST_PLACES {
            for span in spans_in(alloc, libraries, path, module, wanted, among)? {
                found.push(Sighting { path, module, span })?;
            }
        }
    }
    found.truncate(MOST_PLACES);
    Ok(found)
}

// The places in one module.
fn spans_in(
    alloc: Global,
    libraries: &Libraries,
    path: &ModulePath,
    module: &ReadModule,
    wanted: Wanted<'_>,
    among: Among<'_>,
) -> Result<Vec<Span>, AllocError> {
    let none = Vec::new(alloc);
    let Ok(unit) = read_unit(alloc, module.text.as_str()) else {
        return Ok(none);
    };
    let told = libraries.told_path(alloc, path)?;
    let at = At {
        path: &told,
        libraries,
    };
    let spans = places_in(alloc, &at, &unit, wanted)?;
    let is_asked = match among {
        Among::All => true,
        Among::One(only) => *only == *path,
        Among::Twice => spans.len() > 1,
        Among::Without(name) => places_in(alloc, &at, &unit, Wanted::Binder(name))?.is_empty(),
    };
    Ok(if is_asked { spans } else { none })
}
