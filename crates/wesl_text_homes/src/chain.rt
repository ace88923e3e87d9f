//! Names of packages as paths have them.
use std::alloc::{AllocError, Global};

/// A package, and where it lies.
#[derive(Drop)]
pub struct UsedPackage {
    /// Its chain, its name as paths have it: `a/b` is the package `b` that the package `a` uses.
    pub name: String,
    /// The real name of its folder.
    pub folder: String,
}

/// A package by its chain.
#[derive(Drop)]
pub struct Chain {
    /// The chain.
    pub name: String,
    /// The number of the library to which it leads.
    pub library: usize,
    /// The name under which this library is linked, where other chains lead to it too.
    pub home: String,
}

/// The part of a chain behind the last slash.
pub(crate) fn last_part(name: &str) -> &str {
    match name.rsplit_once('/') {
        Some((_, last)) => last,
        None => name,
    }
}

/// The name of a package that one of a chain uses, if this chain is that of such a package.
pub(crate) fn used_name<'n>(above: &str, name: &'n str) -> Option<&'n str> {
    match name.strip_prefix(above) {
        Some(rest) => match rest.strip_prefix('/') {
            Some(used) if !used.contains('/') => Some(used),
            _ => None,
        },
        None => None,
    }
}

/// The chain of a package that one of a chain uses; of one that the project uses, where no chain is given.
pub(crate) fn chain_below(
    alloc: Global,
    above: Option<&str>,
    name: &str,
) -> Result<String, AllocError> {
    match above {
        Some(above) => format!(in alloc; "{above}/{name}"),
        None => String::from_str(alloc, name),
    }
}
