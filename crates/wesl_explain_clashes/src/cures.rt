//! What helps where a name clashes.

use crate::clash::{Cure, Meaning, Read};
use std::alloc::{AllocError, Global};
use wesl_link_symbols::ids::PathId;
use wesl_program_bundle::{Naming, Options};

/// Whether a held declaration is one of the root's.
fn is_of_root(meaning: Meaning, homes: &[PathId], root: Option<PathId>) -> bool {
    match meaning {
        Meaning::Held(place) => homes.get(place).copied() == root,
        Meaning::Local | Meaning::Outer | Meaning::Word => false,
    }
}

/// Whether a held declaration is one of another module than the root.
fn is_of_another(meaning: Meaning, homes: &[PathId], root: Option<PathId>) -> bool {
    match meaning {
        Meaning::Held(place) => homes.get(place).copied() != root,
        Meaning::Local | Meaning::Outer | Meaning::Word => false,
    }
}

fn other(read: Read) -> Meaning {
    match read {
        Read::As(meaning) | Read::Twice(meaning) => meaning,
        Read::Nothing => Meaning::Outer,
    }
}

/// What helps in the source, whatever the names of modules are written as.
fn in_source(meant: Meaning) -> Cure {
    match meant {
        Meaning::Word => Cure::Rename,
        Meaning::Held(_) | Meaning::Local | Meaning::Outer => Cure::AnotherName,
    }
}

/// What helps where a name clashes.
pub fn cures(
    alloc: Global,
    meant: Meaning,
    read: Read,
    homes: &[PathId],
    root: Option<PathId>,
    options: Options,
) -> Result<Vec<Cure>, AllocError> {
    let mut cures = Vec::new(alloc);
    let is_root = is_of_root(meant, homes, root) || is_of_root(other(read), homes, root);
    let is_another = is_of_another(meant, homes, root) || is_of_another(other(read), homes, root);
    match options.mangler {
        Naming::Own if is_another => cures.push(Cure::AnotherMangler)?,
        Naming::Own if is_root => cures.push(Cure::ManglerAndRoot)?,
        Naming::Escape | Naming::Unicode if is_root && !options.mangle_root => {
            cures.push(Cure::MangleRoot)?;
        }
        Naming::Own | Naming::Escape | Naming::Unicode => {}
    }
    cures.push(in_source(meant))?;
    Ok(cures)
}
