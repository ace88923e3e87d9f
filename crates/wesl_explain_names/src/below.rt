//! Which items of modules lead to modules in which something is asked for.

use crate::texts::Texts;
use std::alloc::{AllocError, Global};
use std::collections::HashMap;
use wesl_link_symbols::ids::{NameId, PathId};
use wesl_link_symbols::keyed;
use wesl_link_symbols::symbols::{Import, Symbol};
use wesl_tree::{Interner, ModulePath};
use wesl_tree_names::PathOrigin;

// What the paths of no package begin with, and what stands before the names of packages.
const START: PathId = PathId(0);

const PACKAGES: PathId = PathId(1);

const OTHERS: usize = 2;

/// What is asked for as paths that end with the item, and what each of them begins with, under numbers and names of their own.
#[derive(Drop)]
pub struct Below {
    names: Interner,
    /// Of what a path begins with, and the name behind it, the number of both.
    longer: HashMap<Symbol<PathId, NameId>, PathId>,
    next: usize,
    /// The numbers of paths that were put in or looked for, where they have one.
    found: HashMap<PathId, Option<PathId>>,
}

impl Below {
    /// Of these symbols. Refused for want of memory alone.
    pub fn of(
        alloc: Global,
        texts: &Texts,
        asked: &[Symbol<PathId, NameId>],
    ) -> Result<Below, AllocError> {
        let mut below = Below {
            names: Interner::new(alloc),
            longer: HashMap::new(alloc),
            next: OTHERS,
            found: HashMap::new(alloc),
        };
        for symbol in asked {
            let number = below.put(texts, symbol.path)?;
            below.lengthen(number, texts.name(symbol.name))?;
        }
        Ok(below)
    }

    /// The number of what a path begins with and the name behind it, which gets one where it has none.
    fn lengthen(&mut self, path: PathId, name: &str) -> Result<PathId, AllocError> {
        let name = self.names.number(name)?;
        if let Some(number) = keyed::value_at(&self.longer, Symbol { path, name }) {
            return Ok(number);
        }
        let number = PathId(self.next);
        keyed::put(&mut self.longer, Symbol { path, name }, number)?;
        self.next = self.next.saturating_add(1);
        Ok(number)
    }

    /// The number of the path of a number, which is put in unless it is there.
    fn put(&mut self, texts: &Texts, id: PathId) -> Result<PathId, AllocError> {
        if let Some(Some(number)) = keyed::value_at(&self.found, id) {
            return Ok(number);
        }
        let Some(path) = texts.module(id) else {
            return Ok(START);
        };
        let mut number = match &path.origin {
            PathOrigin::Package(name) => self.lengthen(PACKAGES, name.as_str())?,
            PathOrigin::Absolute | PathOrigin::Relative(_) => START,
        };
        for component in &path.components {
            number = self.lengthen(number, component.as_str())?;
        }
        keyed::put(&mut self.found, id, Some(number))?;
        Ok(number)
    }

    /// The number of what a path begins with and the name behind it, if a path that was put in begins so.
    fn longer(&self, path: PathId, name: &str) -> Option<PathId> {
        let name = self.names.find(name)?;
        keyed::value_at(&self.longer, Symbol { path, name })
    }

    /// The number of a path, if one that was put in begins with it.
    fn find(&self, path: &ModulePath) -> Option<PathId> {
        let mut number = match &path.origin {
            PathOrigin::Package(name) => self.longer(PACKAGES, name.as_str())?,
            PathOrigin::Absolute | PathOrigin::Relative(_) => START,
        };
        for component in &path.components {
            number = self.longer(number, component.as_str())?;
        }
        Some(number)
    }

    /// Whether what an import names is asked for, or something in a module that it leads to. The path of the import is looked for
    /// once. Refused for want of memory alone.
    pub fn leads_to(
        &mut self,
        texts: &Texts,
        import: &Import<PathId, NameId>,
    ) -> Result<bool, AllocError> {
        let number = match keyed::value_at(&self.found, import.path) {
            Some(number) => number,
            None => {
                let number = match texts.module(import.path) {
                    Some(path) => self.find(path),
                    None => None,
                };
                keyed::put(&mut self.found, import.path, number)?;
                number
            }
        };
        match number {
            Some(number) => Ok(self.longer(number, texts.name(import.item)).is_some()),
            None => Ok(false),
        }
    }
}
