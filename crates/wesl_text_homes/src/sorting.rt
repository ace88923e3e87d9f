//! Which chains lead to the same library: those of equal folders and equal tables, where the same names lead to the same libraries.
use crate::chain::{UsedPackage, used_name};
use std::alloc::{AllocError, Global};

/// Of each package the number of its library. Refused for want of memory alone.
pub(crate) fn sorted(alloc: Global, packages: &[UsedPackage]) -> Result<Vec<usize>, AllocError> {
    let mut libraries = Vec::new(alloc);
    for index in 0..packages.len() {
        libraries.push(index)?;
    }
    for depth in (0..=most_slashes(packages)).rev() {
        join_alike(packages, &mut libraries, depth);
    }
    Ok(libraries)
}

// How many slashes a chain has.
fn slashes(name: &str) -> usize {
    name.chars().filter(|character| *character == '/').count()
}

// How many slashes the longest of the chains has.
fn most_slashes(packages: &[UsedPackage]) -> usize {
    let mut most = 0;
    for package in packages {
        most = slashes(package.name.as_str()).max(most);
    }
    most
}

// Gives each of the packages with so many slashes the library of the first that is like it, once those with more have theirs.
fn join_alike(packages: &[UsedPackage], libraries: &mut Vec<usize>, depth: usize) {
    for index in 0..packages.len() {
        let Some(package) = packages.get(index) else {
            return;
        };
        if slashes(package.name.as_str()) == depth {
            let library = first_alike(packages, libraries, depth, index, package);
            if let Some(place) = libraries.get_mut(index) {
                *place = library.unwrap_or(index);
            }
        }
    }
}

// The library of the first package that is like the one at a place, with so many slashes, and that has its library: it has more
// slashes, or comes before it.
fn first_alike(
    packages: &[UsedPackage],
    libraries: &[usize],
    depth: usize,
    place: usize,
    package: &UsedPackage,
) -> Option<usize> {
    for (index, other) in packages.iter().enumerate() {
        let other_depth = slashes(other.name.as_str());
        let has_library = other_depth > depth || (other_depth == depth && index < place);
        if has_library && are_alike(packages, libraries, package, other) {
            return libraries.get(index).copied();
        }
    }
    None
}

// Whether two packages have one folder and one table.
fn are_alike(
    packages: &[UsedPackage],
    libraries: &[usize],
    package: &UsedPackage,
    other: &UsedPackage,
) -> bool {
    let name = package.name.as_str();
    let other_name = other.name.as_str();
    package.folder.as_str() == other.folder.as_str()
        && has_table(packages, libraries, name, other_name)
        && has_table(packages, libraries, other_name, name)
}

// Whether what a package uses is used by another by the same names.
fn has_table(packages: &[UsedPackage], libraries: &[usize], name: &str, other: &str) -> bool {
    for (index, package) in packages.iter().enumerate() {
        if let Some(used) = used_name(name, package.name.as_str()) {
            if used_library(packages, libraries, other, used) != libraries.get(index).copied() {
                return false;
            }
        }
    }
    true
}

// The library that a package uses by a name.
fn used_library(
    packages: &[UsedPackage],
    libraries: &[usize],
    above: &str,
    name: &str,
) -> Option<usize> {
    for (index, package) in packages.iter().enumerate() {
        if used_name(above, package.name.as_str()) == Some(name) {
            return libraries.get(index).copied();
        }
    }
    None
}
