//! The homes of libraries.
use crate::chain::{Chain, UsedPackage, last_part};
use std::alloc::{AllocError, Global};

/// The chains of packages, which have these libraries, with their homes. The root lies in the package of a chain, if one is given.
/// Refused for want of memory alone.
pub(crate) fn chains_of(
    alloc: Global,
    packages: &[UsedPackage],
    libraries: &[usize],
    root: Option<&str>,
) -> Result<Vec<Chain>, AllocError> {
    let mut chains: Vec<Chain> = Vec::new(alloc);
    for (package, library) in packages.iter().zip(libraries.iter()) {
        let home = match home_given(&chains, *library) {
            Some(home) => String::from_str(alloc, home)?,
            None => home_of_library(alloc, packages, libraries, &chains, *library, root)?,
        };
        chains.push(Chain {
            name: String::from_str(alloc, package.name.as_str())?,
            library: *library,
            home,
        })?;
    }
    Ok(chains)
}

// The home that a library has already.
fn home_given(chains: &[Chain], library: usize) -> Option<&str> {
    for chain in chains {
        if chain.library == library {
            return Some(chain.home.as_str());
        }
    }
    None
}

// The home of a library: the chain in which the root lies, else the first chain of one name, else the only chain, else a new name.
fn home_of_library(
    alloc: Global,
    packages: &[UsedPackage],
    libraries: &[usize],
    chains: &[Chain],
    library: usize,
    root: Option<&str>,
) -> Result<String, AllocError> {
    let mut first: Option<&str> = None;
    let mut is_diamond = false;
    let mut at_top: Option<&str> = None;
    for (package, other) in packages.iter().zip(libraries.iter()) {
        let name = package.name.as_str();
        if *other == library {
            if root == Some(name) {
                return String::from_str(alloc, name);
            }
            is_diamond = first.is_some();
            first = first.or(Some(name));
            if !name.contains('/') {
                at_top = at_top.or(Some(name));
            }
        }
    }
    match at_top.or(if is_diamond { None } else { first }) {
        Some(name) => String::from_str(alloc, name),
        None => new_home(alloc, packages, chains, first.unwrap_or("")),
    }
}

// A new name at the top for the library of a chain: the last part of the chain, the chain with underscores for its slashes, or the
// last part with a number.
fn new_home(
    alloc: Global,
    packages: &[UsedPackage],
    chains: &[Chain],
    name: &str,
) -> Result<String, AllocError> {
    let part = last_part(name);
    if is_new(packages, chains, part) {
        return String::from_str(alloc, part);
    }
    let joined = joined_parts(alloc, name)?;
    if is_new(packages, chains, joined.as_str()) {
        return Ok(joined);
    }
    for number in 2..=chains.len().saturating_add(2) {
        let counted = format!(in alloc; "{part}{number}")?;
        if is_new(packages, chains, counted.as_str()) {
            return Ok(counted);
        }
    }
    String::from_str(alloc, name)
}

// A chain with underscores for its slashes.
fn joined_parts(alloc: Global, name: &str) -> Result<String, AllocError> {
    let mut joined = String::new(alloc);
    for character in name.chars() {
        joined.push(if character == '/' { '_' } else { character })?;
    }
    Ok(joined)
}

// Whether a name is that of no package at the top and no home.
fn is_new(packages: &[UsedPackage], chains: &[Chain], name: &str) -> bool {
    !packages.iter().any(|package| package.name.as_str() == name)
        && !chains.iter().any(|chain| chain.home.as_str() == name)
}
