//! Names of modules that are asked for.

use std::alloc::{AllocError, Global};
use std::collections::HashMap;
use wesl_link_symbols::ids::{NameId, PathId};
use wesl_link_symbols::keyed;
use wesl_link_symbols::symbols::Symbol;
use wesl_link_symbols::table::{Declaration, Table};

/// Names of modules that are asked for, each once, in the order in which they were found.
#[derive(Drop)]
pub struct Asked {
    /// all of them
    pub found: Vec<Symbol<PathId, NameId>>,
    held: HashMap<Symbol<PathId, NameId>, bool>,
}

impl Asked {
    /// None. They take no memory.
    pub fn new(alloc: Global) -> Asked {
        Asked {
            found: Vec::new(alloc),
            held: HashMap::new(alloc),
        }
    }

    /// Puts a name of a module, unless it is there. Refused for want of memory alone.
    pub fn put(&mut self, path: PathId, name: NameId) -> Result<(), AllocError> {
        if self.has(path, name) {
            return Ok(());
        }
        keyed::put(&mut self.held, Symbol { path, name }, true)?;
        self.found.push(Symbol { path, name })?;
        Ok(())
    }

    /// Whether a name of a module is there.
    pub fn has(&self, path: PathId, name: NameId) -> bool {
        keyed::value_at(&self.held, Symbol { path, name }).is_some()
    }

    /// Puts what a declaration asks for. Refused for want of memory alone.
    pub fn put_references(&mut self, declaration: &Declaration) -> Result<(), AllocError> {
        for reference in declaration.references() {
            self.put(reference.path, reference.name)?;
        }
        Ok(())
    }

    /// What the import with an index asks for.
    fn put_target(&mut self, table: &Table, index: usize) -> Result<(), AllocError> {
        match table.imports().get(index) {
            Some(import) => self.put(import.path, import.item),
            None => Ok(()),
        }
    }

    /// Puts what a module asks for where it is asked for a name that it imports. Refused for want of memory alone.
    pub fn put_targets(&mut self, table: &Table, name: NameId) -> Result<(), AllocError> {
        let mut at = table.latest_import_of(name);
        'targets: while let Some(index) = at {
            self.put_target(table, index)?;
            at = table.earlier_import_of(index, name);
        }
        Ok(())
    }
}
