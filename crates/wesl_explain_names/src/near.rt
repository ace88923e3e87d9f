//! Names that are near to one that is not there.

use crate::letters::Letters;
use crate::texts::Texts;
use std::alloc::{AllocError, Global};
use strsim::levenshtein;
use wesl_link_symbols::ids::{NameId, PathId};
use wesl_link_symbols::symbols::Symbol;
use wesl_link_symbols::table::Table;
use wesl_tree::Interner;

// How many edits may lead from one name to the other, and how many where the name has three letters or fewer.
const EDITS: usize = 2;

const FEW_EDITS: usize = 1;

const FEW_LETTERS: usize = 3;

// A longer name is not compared.
const LONGEST: usize = 64;

// For how many names near ones are looked for, and how many are compared with these letter by letter.
const NAMES: usize = 32;

const COMPARISONS: usize = 50_000;

/// The text of a path, and how many edits lead to it.
#[derive(Clone, Copy)]
struct NearPath<'t> {
    text: &'t str,
    edits: usize,
}

/// A declared name, and how many edits lead to it.
#[derive(Clone, Copy)]
pub struct Near {
    pub symbol: Symbol<PathId, NameId>,
    pub edits: usize,
}

/// A name that is looked for.
#[derive(Clone, Copy)]
pub struct Wanted<'w> {
    text: &'w str,
    letters: Letters,
    /// how many edits may lead to a name that is near
    edits: usize,
}

/// Looks for names that are near to the first so many that it is asked for, and compares a fixed number with these.
#[derive(Drop)]
pub struct NearNames {
    names: usize,
    comparisons: usize,
}

impl<'w> Wanted<'w> {
    fn new(text: &'w str) -> Wanted<'w> {
        let letters = Letters::of(text);
        let edits = if letters.count <= FEW_LETTERS {
            FEW_EDITS
        } else {
            EDITS
        };
        Wanted {
            text,
            letters,
            edits,
        }
    }

    /// Whether a name has so many letters, and so many of the same, that it may be near. Each letter has four bytes at most.
    fn may_be(&self, text: &str) -> bool {
        if text.len().abs_diff(self.text.len()) > 4 * EDITS || self.text.len() > LONGEST {
            return false;
        }
        let letters = Letters::of(text);
        letters.count.abs_diff(self.letters.count) <= self.edits
            && self.letters.edits_to(letters) <= EDITS
    }

    /// Whether a name with so many letters is near, to which so many edits lead: more than one letter stays.
    fn is_near(&self, letters: usize, edits: usize) -> bool {
        let own = self.letters.count;
        let longest = if letters < own { own } else { letters };
        edits <= self.edits && longest.saturating_sub(edits) > 1
    }
}

/// Whether so many edits are fewer than lead to the nearest so far.
fn is_nearer(best: Option<Near>, edits: usize) -> bool {
    match best {
        Some(near) => edits < near.edits,
        None => true,
    }
}

impl NearNames {
    /// No name was looked for.
    pub fn new() -> NearNames {
        NearNames {
            names: NAMES,
            comparisons: COMPARISONS,
        }
    }

    /// A name for which near ones are looked for: none where that was done for so many others.
    pub fn wanted<'w>(&mut self, text: &'w str) -> Option<Wanted<'w>> {
        self.names = self.names.checked_sub(1)?;
        Some(Wanted::new(text))
    }

    /// Takes a comparison, unless there is none left.
    fn takes_comparison(&mut self) -> bool {
        match self.comparisons.checked_sub(1) {
            Some(left) => {
                self.comparisons = left;
                true
            }
            None => false,
        }
    }

    /// The nearer of the one so far and a name.
    fn nearer(
        &mut self,
        alloc: Global,
        texts: &Texts,
        wanted: Wanted<'_>,
        best: Option<Near>,
        symbol: Symbol<PathId, NameId>,
    ) -> Result<Option<Near>, AllocError> {
        let own = texts.name(symbol.name);
        if !wanted.may_be(own) || !self.takes_comparison() {
            return Ok(best);
        }
        let edits = levenshtein(alloc, wanted.text, own)?;
        if wanted.is_near(Letters::of(own).count, edits) && is_nearer(best, edits) {
            Ok(Some(Near { symbol, edits }))
        } else {
            Ok(best)
        }
    }

    /// The nearest of the one so far and the names that a module declares, if one is near.
    pub fn nearest_declared(
        &mut self,
        alloc: Global,
        texts: &Texts,
        wanted: Wanted<'_>,
        so_far: Option<Near>,
        table: &Table,
    ) -> Result<Option<Near>, AllocError> {
        let path = table.path();
        let mut best = so_far;
        for declaration in table.declarations() {
            if let Some(name) = declaration.name() {
                best = self.nearer(alloc, texts, wanted, best, Symbol { path, name })?;
            }
        }
        Ok(best)
    }

    /// The nearest of the one so far and the names that a module publishes as imports.
    fn published(
        &mut self,
        alloc: Global,
        texts: &Texts,
        wanted: Wanted<'_>,
        so_far: Option<Near>,
        table: &Table,
    ) -> Result<Option<Near>, AllocError> {
        let path = table.path();
        let mut best = so_far;
        for import in table.imports() {
            if import.published {
                let name = import.bound;
                best = self.nearer(alloc, texts, wanted, best, Symbol { path, name })?;
            }
        }
        Ok(best)
    }

    /// The nearest of the names that a module declares or publishes, if one is near.
    pub fn nearest_seen(
        &mut self,
        alloc: Global,
        texts: &Texts,
        wanted: Wanted<'_>,
        table: &Table,
    ) -> Result<Option<Near>, AllocError> {
        let declared = self.nearest_declared(alloc, texts, wanted, None, table)?;
        self.published(alloc, texts, wanted, declared, table)
    }

    /// The nearer of the one so far and a path.
    fn nearer_path<'t>(
        &mut self,
        alloc: Global,
        wanted: Wanted<'_>,
        best: Option<NearPath<'t>>,
        text: &'t str,
    ) -> Result<Option<NearPath<'t>>, AllocError> {
        if !wanted.may_be(text) || !self.takes_comparison() {
            return Ok(best);
        }
        let edits = levenshtein(alloc, wanted.text, text)?;
        let least = match best {
            Some(near) => near.edits,
            None => EDITS + 1,
        };
        if edits < least {
            Ok(Some(NearPath { text, edits }))
        } else {
            Ok(best)
        }
    }

    /// The nearest of these paths, if one is near.
    pub fn nearest_path(
        &mut self,
        alloc: Global,
        wanted: Wanted<'_>,
        listed: &Interner,
    ) -> Result<Option<String>, AllocError> {
        let mut best = None;
        for number in 0..listed.len() {
            let text = listed.name(NameId(number)).unwrap_or("");
            best = self.nearer_path(alloc, wanted, best, text)?;
        }
        match best {
            Some(near) => Ok(Some(String::from_str(alloc, near.text)?)),
            None => Ok(None),
        }
    }
}

/// The one of these modules that declares just that name, where one alone does.
pub fn only_declared(tables: &[Table], name: NameId) -> Option<Symbol<PathId, NameId>> {
    let mut found = None;
    for table in tables {
        if table.declares(name) {
            if found.is_some() {
                return None;
            }
            found = Some(Symbol {
                path: table.path(),
                name,
            });
        }
    }
    found
}
