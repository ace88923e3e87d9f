//! What the identifiers of a linked unit stand for.

use crate::clash::{Meaning, Read};
use std::alloc::{AllocError, Global};
use std::collections::HashMap;
use wesl_link_symbols::keyed;
use wesl_link_tables::reading::declared_ident;
use wesl_scope_clashes::Reading;
use wesl_scope_occurrences::{Identifiers, Occurrence};
use wesl_tree::{GlobalDeclarationNode, Ident, NameId, TranslationUnit};

/// What the identifiers of a unit stand for.
#[derive(Drop)]
pub struct Meanings {
    // of the number of an identifier the declaration that it is the name of
    declared: HashMap<NameId, usize>,
    // of the number of an identifier whether it is bound in a function
    local: HashMap<NameId, bool>,
}

fn add_declared(
    declared: &mut HashMap<NameId, usize>,
    place: usize,
    node: &GlobalDeclarationNode,
) -> Result<(), AllocError> {
    match declared_ident(&node.node) {
        Some(ident) => keyed::put(declared, NameId(ident.0), place),
        None => Ok(()),
    }
}

fn declared_in(
    alloc: Global,
    unit: &TranslationUnit,
) -> Result<HashMap<NameId, usize>, AllocError> {
    let mut declared = HashMap::new(alloc);
    for (place, node) in unit.global_declarations().iter().enumerate() {
        add_declared(&mut declared, place, node)?;
    }
    Ok(declared)
}

fn add_local(
    local: &mut HashMap<NameId, bool>,
    occurrence: &Occurrence<'_>,
) -> Result<(), AllocError> {
    if occurrence.standing.is_binder() && occurrence.block != 0 {
        keyed::put(local, NameId(occurrence.ident.0), true)?;
    }
    Ok(())
}

fn locals_in(alloc: Global, found: &Identifiers<'_>) -> Result<HashMap<NameId, bool>, AllocError> {
    let mut local = HashMap::new(alloc);
    for occurrence in &found.all {
        add_local(&mut local, occurrence)?;
    }
    Ok(local)
}

impl Meanings {
    /// What those of a unit stand for, which are found in it.
    pub fn new(
        alloc: Global,
        unit: &TranslationUnit,
        found: &Identifiers<'_>,
    ) -> Result<Meanings, AllocError> {
        Ok(Meanings {
            declared: declared_in(alloc, unit)?,
            local: locals_in(alloc, found)?,
        })
    }

    /// What the identifier of a number stands for.
    pub fn of(&self, ident: Ident) -> Meaning {
        let number = NameId(ident.0);
        match keyed::value_at(&self.declared, number) {
            Some(place) => Meaning::Held(place),
            None => match keyed::value_at(&self.local, number) {
                Some(_) => Meaning::Local,
                None => Meaning::Outer,
            },
        }
    }

    /// What the name of an identifier is read as.
    pub fn read(&self, reading: Reading) -> Read {
        match reading {
            Reading::Captured(binder) => Read::As(self.of(binder.ident)),
            Reading::Unbound => Read::Nothing,
            Reading::Duplicate(binder) => Read::Twice(self.of(binder.ident)),
        }
    }
}
