//! The texts of numbers.

use std::alloc::{AllocError, Global};
use std::collections::HashMap;
use wesl_link_symbols::ids::{NameId, PathId};
use wesl_link_symbols::table::Table;
use wesl_link_tables::numbers::Numbers;
use wesl_tree::ModulePath;

/// The names of a link, and the paths that its modules have and ask for, by their numbers. A path that others only go on from
/// has no text.
#[derive(Drop)]
pub struct Texts {
    numbers: Numbers,
    modules: HashMap<PathId, ModulePath>,
    paths: Vec<String>,
}

fn path_text(alloc: Global, path: &ModulePath) -> Result<String, AllocError> {
    path.to_text(alloc).ok().ok_or(AllocError)
}

impl Texts {
    /// The texts of these numbers, as far as the root and these tables have them.
    pub fn new(
        alloc: Global,
        numbers: Numbers,
        root: PathId,
        tables: &[Table],
    ) -> Result<Texts, AllocError> {
        let mut texts = Texts {
            numbers,
            modules: HashMap::new(alloc),
            paths: Vec::new(alloc),
        };
        texts.add(alloc, root)?;
        for table in tables {
            texts.add_table(alloc, table)?;
        }
        Ok(texts)
    }

    /// Adds the path of a number.
    fn add(&mut self, alloc: Global, id: PathId) -> Result<(), AllocError> {
        if self.modules.contains_key(&id) {
            return Ok(());
        }
        let Some(path) = self.numbers.paths.path(alloc, id)? else {
            return Ok(());
        };
        self.put_text(alloc, id, path_text(alloc, &path)?)?;
        match self.modules.insert(id, path) {
            Ok(_) => Ok(()),
            Err(_) => Err(AllocError),
        }
    }

    /// Puts the text of a number in its place.
    fn put_text(&mut self, alloc: Global, id: PathId, text: String) -> Result<(), AllocError> {
        for _place in self.paths.len()..id.0 {
            self.paths.push(String::new(alloc))?;
        }
        match self.paths.get_mut(id.0) {
            Some(place) => *place = text,
            None => self.paths.push(text)?,
        }
        Ok(())
    }

    /// Adds the paths of a table.
    fn add_table(&mut self, alloc: Global, table: &Table) -> Result<(), AllocError> {
        self.add(alloc, table.path())?;
        for import in table.imports() {
            self.add(alloc, import.path)?;
        }
        for declaration in table.declarations() {
            for reference in declaration.references() {
                self.add(alloc, reference.path)?;
            }
        }
        Ok(())
    }

    /// The text of a path.
    pub fn path(&self, id: PathId) -> &str {
        match self.paths.get(id.0) {
            Some(text) => text.as_str(),
            None => "",
        }
    }

    /// The path of a number.
    pub fn module(&self, id: PathId) -> Option<&ModulePath> {
        self.modules.get(&id)
    }

    /// A name.
    pub fn name(&self, id: NameId) -> &str {
        match self.numbers.names.name(id) {
            Some(name) => name,
            None => "",
        }
    }

    /// The names, and the texts of the paths, each by its number.
    pub fn into_lists(self, alloc: Global) -> Result<(Vec<String>, Vec<String>), AllocError> {
        let Texts {
            numbers,
            modules: _,
            paths,
        } = self;
        let Numbers { names, paths: _ } = numbers;
        Ok((names.into_texts(alloc)?, paths))
    }
}
