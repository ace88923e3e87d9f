//! Where declarations and imports stand.
use std::alloc::{AllocError, Global};
use wesl_explain_world::{Explanation, PathId, UnusedImport};
use wesl_text_bundle::{PlacedName, PlacedNames, placed_names};
use wesl_text_link::ReadModules;
use wesl_tree::{ModulePath, Span};

// The names of a module, and how many of them were passed.
#[derive(Drop)]
struct Names {
    path: Option<PathId>,
    placed: Vec<PlacedName>,
    passed: usize,
}

impl Names {
    // Those of no module.
    fn new(alloc: Global) -> Names {
        Names {
            path: None,
            placed: Vec::new(alloc),
            passed: 0,
        }
    }

    // The place of the next one with this name, which is passed then.
    fn next(&mut self, name: Option<&str>) -> Option<Span> {
        let index = self.index_of(name)?;
        self.passed = index.saturating_add(1);
        match self.placed.get(index) {
            Some(placed) => Some(placed.span),
            None => None,
        }
    }

    // The index of the next one with this name.
    fn index_of(&self, name: Option<&str>) -> Option<usize> {
        for (index, placed) in self.placed.iter().enumerate().skip(self.passed) {
            if own_name(placed) == name {
                return Some(index);
            }
        }
        None
    }
}

// The name of what stands at a place.
fn own_name(placed: &PlacedName) -> Option<&str> {
    match &placed.name {
        Some(name) => Some(name.as_str()),
        None => None,
    }
}

/// Of each held declaration its place, if it is known. Those of a module stand one behind another, in the order of its text.
pub(crate) fn held_places(
    alloc: Global,
    modules: ReadModules<'_>,
    told: &Explanation,
    paths: &[Option<ModulePath>],
) -> Result<Vec<Option<Span>>, AllocError> {
    let mut places = Vec::with_capacity(alloc, told.held.len())?;
    let mut names = Names::new(alloc);
    for declaration in &told.held {
        if names.path != Some(declaration.path) {
            names = names_at(alloc, modules, paths, declaration.path)?;
        }
        let name = match declaration.name {
            Some(name) => Some(told.name(name)),
            None => None,
        };
        places.push(names.next(name))?;
    }
    Ok(places)
}

// The declarations of the module at a path.
fn names_at(
    alloc: Global,
    modules: ReadModules<'_>,
    paths: &[Option<ModulePath>],
    path: PathId,
) -> Result<Names, AllocError> {
    let PlacedNames {
        declared,
        imported: _,
    } = names_in(alloc, modules, paths, path)?;
    Ok(Names {
        path: Some(path),
        placed: declared,
        passed: 0,
    })
}

// The names that stand in the module at a path.
fn names_in(
    alloc: Global,
    modules: ReadModules<'_>,
    paths: &[Option<ModulePath>],
    path: PathId,
) -> Result<PlacedNames, AllocError> {
    match paths.get(path.0) {
        Some(Some(module)) => placed_names(alloc, modules, module),
        _ => Ok(PlacedNames {
            declared: Vec::new(alloc),
            imported: Vec::new(alloc),
        }),
    }
}

/// Imports that nothing uses, each with its place, if it is known.
#[derive(Drop)]
pub(crate) struct PlacedImports {
    /// the imports
    pub(crate) imports: Vec<UnusedImport>,
    /// of each its place
    pub(crate) places: Vec<Option<Span>>,
}

/// The imports that nothing uses. Where a library has several chains, those that no file has are left out: they stand for paths.
pub(crate) fn unused_imports(
    alloc: Global,
    modules: ReadModules<'_>,
    told: &Explanation,
    paths: &[Option<ModulePath>],
) -> Result<PlacedImports, AllocError> {
    let is_plain = modules.libraries.is_plain();
    let mut imports = Vec::new(alloc);
    let mut places = Vec::new(alloc);
    for import in &told.unused {
        let placed = names_in(alloc, modules, paths, import.path)?;
        let place = place_of(&placed.imported, told.name(import.bound));
        if is_plain || place.is_some() {
            imports.push(*import)?;
            places.push(place)?;
        }
    }
    Ok(PlacedImports { imports, places })
}

// The place of the first with a name.
fn place_of(placed: &[PlacedName], name: &str) -> Option<Span> {
    for one in placed {
        if own_name(one) == Some(name) {
            return Some(one.span);
        }
    }
    None
}
