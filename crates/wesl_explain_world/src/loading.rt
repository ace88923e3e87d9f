//! The symbol tables of the modules that a link loads.
ghost use Rattle.std.specs.Prelude.{◌≡◌, false, IfOk, IfErr};
ghost use Rattle.wesl_tree_names.specs.Path.{path_view, is_relative};
ghost use Rattle.wesl_link_tables.specs.Numbering.{PathAt};
ghost use Rattle.wesl_link_tables.specs.NumbersView.{numbering};

use crate::sources::Sources;
use std::alloc::{AllocError, Global};
use wesl_explain_faults::{ReadModule, ReadModules};
use wesl_link_reach::loader::{LoadError, Loader};
use wesl_link_symbols::ids::PathId;
use wesl_link_symbols::table::Table;
use wesl_link_tables::marks::Mark;
use wesl_link_tables::numbers::Numbers;
use wesl_link_tables::table::{Tabled, table_of};
use wesl_resolve_base::Resolver;
use wesl_tree::{ModulePath, TranslationUnit};
use wesl_tree_names::ResolveError;

/// Reads modules and makes their tables, under one numbering.
#[derive(Drop)]
pub struct TableLoader<'t> {
    pub sources: Sources<'t>,
    pub numbers: Numbers,
    /// The modules that were read, where they are kept.
    pub read: Option<ReadModules>,
}

impl<'t> TableLoader<'t> {
    /// Nothing was read. The modules that are read are kept where that is asked for.
    pub fn new(alloc: Global, sources: Sources<'t>, is_keeping: bool) -> TableLoader<'t> {
        let read = if is_keeping {
            Some(ReadModules::new(alloc))
        } else {
            None
        };
        TableLoader {
            sources,
            numbers: Numbers::new(alloc),
            read,
        }
    }

    /// The table of a unit that was read, which is kept where that is asked for.
    fn table_of_unit(
        &mut self,
        alloc: Global,
        id: PathId,
        path: &ModulePath,
        unit: TranslationUnit,
    ) -> Result<Table, AllocError>
        requires asked { is_relative (path_view path.now) ≡ false }
        requires held { PathAt (numbering self.old.numbers) id (path_view path.now) }
        ensures path { IfOk result (λ t. t.path ≡ id) }
    {
        let Tabled { table, marks } = table_of(alloc, &mut self.numbers, id, path, &unit)?;
        self.keep(alloc, id, path, unit, marks)?;
        Ok(table)
    }

    /// Keeps a module that was read, where that is asked for.
    fn keep(
        &mut self,
        alloc: Global,
        id: PathId,
        path: &ModulePath,
        unit: TranslationUnit,
        marks: Vec<Vec<Mark>>,
    ) -> Result<(), AllocError>
        requires { is_relative (path_view path.now) ≡ false }
    {
        let module = ReadModule {
            path: id,
            unit,
            marks,
        };
        match &mut self.read {
            Some(read) => read.put(alloc, path, module),
            None => Ok(()),
        }
    }
}

/// The path of a number.
fn path_of(alloc: Global, numbers: &Numbers, id: PathId) -> Option<ModulePath> {
    match numbers.paths.path(alloc, id) {
        Ok(path) => path,
        Err(_) => None,
    }
}

// Nothing is promised of what is handed out, and no path is refused before it is asked for.
impl Loader<ResolveError> for TableLoader<'_> {
    ghost hands = { λ _ _ _. Unit {0} };

    ghost refuses = { λ _ _ _. Unit {0} };

    ghost ready = { λ _ _. Unit {0} };

    fn load(&mut self, alloc: Global, path: PathId) -> Result<Table, LoadError<ResolveError>> {
        let Some(module) = path_of(alloc, &self.numbers, path) else {
            return Err(LoadError::Memory);
        };
        if module.is_relative() {
            return Err(LoadError::Memory);
        }
        let Some(id) = self.numbers.path(alloc, &module).ok() else {
            return Err(LoadError::Memory);
        };
        if id != path {
            return Err(LoadError::Memory);
        }
        let mut unit = match self.sources.resolve_module(alloc, &module) {
            Ok(unit) => unit,
            Err(refusal) => return Err(LoadError::Refused(refusal)),
        };
        unit.remove_voids();
        match self.table_of_unit(alloc, id, &module, unit) {
            Ok(table) => Ok(table),
            Err(_) => Err(LoadError::Memory),
        }
    }
}
