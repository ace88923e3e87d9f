//! References with paths that begin with packages, and what they become.
use crate::binders::Binders;
use crate::fresh::{FreshImport, fresh_number};
use crate::imports::components_below;
use crate::order::turns_before;
use std::alloc::{AllocError, Global};
use wesl_scope_occurrences::{Occurrence, Standing, occurrences};
use wesl_text_homes::Libraries;
use wesl_tree::TranslationUnit;
use wesl_tree_names::{Ident, ModulePath, PathOrigin};

/// What becomes of the references of a unit.
#[derive(Drop)]
pub(crate) struct Turns {
    /// The imports that stand for paths.
    pub(crate) fresh: Vec<FreshImport>,
    /// Of each type, in the order in which they are replaced, the number of the import that stands for its path, if one does.
    pub(crate) imports: Vec<Option<usize>>,
}

// A reference whose path begins with the name of a package.
#[derive(Clone, Copy)]
struct PackageReference<'a> {
    // the number of references before it
    number: usize,
    // the number of identifiers before it
    place: usize,
    // the name of the package
    package: &'a str,
    // its path
    path: &'a ModulePath,
    // its name
    ident: Ident,
}

/// What becomes of the references of a unit at a path in this package, as a link has it, if it lies in one. Refused for want of
/// memory alone.
pub(crate) fn turns_of(
    alloc: Global,
    libraries: &Libraries,
    path: &ModulePath,
    within: Option<&str>,
    unit: &TranslationUnit,
) -> Result<Turns, AllocError> {
    let found = occurrences(alloc, unit)?;
    let references = package_references(alloc, &found.all)?;
    let mut fresh = Vec::new(alloc);
    if references.is_empty() {
        return Ok(Turns {
            fresh,
            imports: Vec::new(alloc),
        });
    }
    let numbers = numbered(
        alloc,
        libraries,
        path,
        within,
        unit,
        &references,
        &mut fresh,
    )?;
    let imports = in_order(alloc, unit, &numbers)?;
    Ok(Turns { fresh, imports })
}

// The numbers of references that lead elsewhere than the linker takes them, each with that of the import that stands for its path.
fn numbered(
    alloc: Global,
    libraries: &Libraries,
    path: &ModulePath,
    within: Option<&str>,
    unit: &TranslationUnit,
    references: &[PackageReference<'_>],
    fresh: &mut Vec<FreshImport>,
) -> Result<Vec<(usize, usize)>, AllocError> {
    let mut numbers = Vec::new(alloc);
    let names = unit.names();
    let firsts = firsts_of(alloc, references)?;
    let binders = Binders::of(alloc, path, unit)?;
    for reference in references.iter() {
        if !binders.is_import(names, reference.package, reference.place) {
            if let Some(home) = libraries.turned(alloc, within, reference.package)? {
                let target = components_below(alloc, home, &reference.path.components)?;
                let number = fresh_number(alloc, fresh, names, &firsts, target, reference.ident)?;
                numbers.push((reference.number, number))?;
            }
        }
    }
    Ok(numbers)
}

// The references whose paths begin with the names of packages.
fn package_references<'a>(
    alloc: Global,
    found: &[Occurrence<'a>],
) -> Result<Vec<PackageReference<'a>>, AllocError> {
    let mut references = Vec::new(alloc);
    let mut number: usize = 0;
    for occurrence in found {
        if let Standing::Reference(path) = occurrence.standing {
            if let Some(path) = path {
                if let PathOrigin::Package(package) = &path.origin {
                    references.push(PackageReference {
                        number,
                        place: occurrence.place,
                        package: package.as_str(),
                        path,
                        ident: occurrence.ident,
                    })?;
                }
            }
            number = number.saturating_add(1);
        }
    }
    Ok(references)
}

// The names of the packages with which paths begin.
fn firsts_of<'a>(
    alloc: Global,
    references: &[PackageReference<'a>],
) -> Result<Vec<&'a str>, AllocError> {
    let mut firsts = Vec::new(alloc);
    for reference in references.iter() {
        firsts.push(reference.package)?;
    }
    Ok(firsts)
}

// The numbers of imports for references, by the order in which types are replaced.
fn in_order(
    alloc: Global,
    unit: &TranslationUnit,
    numbers: &[(usize, usize)],
) -> Result<Vec<Option<usize>>, AllocError> {
    let mut imports = Vec::new(alloc);
    if numbers.is_empty() {
        return Ok(imports);
    }
    let before = turns_before(alloc, unit)?;
    for _turn in before.iter() {
        imports.push(None)?;
    }
    for (reference, import) in numbers.iter() {
        if let Some(turn) = before.get(*reference) {
            if let Some(place) = imports.get_mut(*turn) {
                *place = Some(*import);
            }
        }
    }
    Ok(imports)
}
