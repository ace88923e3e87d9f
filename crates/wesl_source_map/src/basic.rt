//! A record of names and of modules.
ghost use Rattle.std.specs.Prelude.{◌≡◌, [], None, Some, OnOk, OnErr, IfOk, IfErr, map, option_map, string_bytes};
ghost use Rattle.wesl_tree_names.specs.Path.{Text, Path, path_view};
ghost use Rattle.wesl_tree_names.specs.declared.errors.Error as error;
ghost use Rattle.wesl_source_map_entries.specs.Records.{WritesItem, WritesSource, SameItems, SameSources};
ghost use Rattle.wesl_source_map_entries.specs.Listed.{IsListing};
ghost use Rattle.wesl_source_map_entries.specs.Tables.{items_in};

use std::alloc::{AllocError, Global};
use std::collections::BTreeMap;
use std::mem::{replace, swap};
use wesl_source_map_entries::{Entries, SourceMap, text_of};
use wesl_tree_names::{Error, ModulePath};

/// Remembers the item that each name was last given for, and what was last said of each module.
///
/// # Example
///
/// ```
/// let mut map = BasicSourceMap::new(alloc);
/// map.add_decl(name, ModulePath::new_root(alloc), item)?;
/// map.set_default_source(text);
/// ```
#[derive(Debug)]
pub struct BasicSourceMap {
    pub(crate) entries: Entries,
}

// By hand, so that it is proved once: a derived one is proved in each crate that lets go of a value.
impl Drop for BasicSourceMap {
    fn drop(self) {
        let BasicSourceMap { entries: _ } = self;
    }
}

/// Adds each name of a table to a list, with the path of its module and its item.
fn list_decls<'a>(
    decls: &mut Vec<(&'a str, &'a ModulePath, &'a str)>,
    table: &'a BTreeMap<String, (ModulePath, String)>,
) -> Result<(), AllocError>
    requires empty { decls.old.items ≡ [] }
    ensures listed { OnOk result (IsListing (items_in table.now) (map (λ d. (d.0.now, (path_view d.1.now, d.2.now))) decls.new.items)) }
{
    for (name, (path, item)) in table.iter() {
        decls.push((name.as_str(), path, item.as_str()))?;
    }
    Ok(())
}

impl BasicSourceMap {
    ghost use Rattle.wesl_source_map.specs.BasicView.{items, sources, default_text, KnowsTheSame};

    /// A map that knows nothing. It takes no memory.
    pub fn new(alloc: Global) -> BasicSourceMap
        ensures decls { (name : Text) → items result name ≡ None }
        ensures modules { (path : Path) → sources result path ≡ None }
        ensures default { default_text result ≡ None }
    {
        BasicSourceMap {
            entries: Entries::new(alloc),
        }
    }

    /// Records that `name` stands for `item` of the module at `path`, in place of an earlier item of that name.
    ///
    /// Refused for want of memory alone, which leaves the map as it was.
    pub fn add_decl(&mut self, name: String, path: ModulePath, item: String) -> Result<(), Error>
        ensures written { OnOk result (WritesItem (string_bytes name) (path_view path, string_bytes item) (items self.old) (items self.new)) }
        ensures kept { OnErr result (SameItems (items self.old) (items self.new)) }
        ensures modules { SameSources (sources self.old) (sources self.new) }
        ensures default { default_text self.new ≡ default_text self.old }
        ensures refused { IfErr result (λ e. e ≡ error.Memory) }
    {
        self.entries.put_decl(name, path, item)
    }

    /// Records the source of the module at `path` and the name by which it is shown, in place of earlier ones.
    ///
    /// Refused for want of memory alone, which leaves the map as it was.
    pub fn add_source(
        &mut self,
        path: ModulePath,
        display: Option<String>,
        text: String,
    ) -> Result<(), Error>
        ensures written { OnOk result (WritesSource (path_view path) (option_map string_bytes display, string_bytes text)
            (sources self.old) (sources self.new)) }
        ensures kept { OnErr result (SameSources (sources self.old) (sources self.new)) }
        ensures decls { SameItems (items self.old) (items self.new) }
        ensures default { default_text self.new ≡ default_text self.old }
        ensures refused { IfErr result (λ e. e ≡ error.Memory) }
    {
        self.entries.put_source(path, display, text)
    }

    /// Sets the source of what is in no module, in place of an earlier one. It takes no memory.
    pub fn set_default_source(&mut self, text: String)
        ensures default { default_text self.new ≡ Some (string_bytes text) }
        ensures decls { SameItems (items self.old) (items self.new) }
        ensures modules { SameSources (sources self.old) (sources self.new) }
    {
        self.entries.default_source = Some(text);
    }

    /// Every recorded name, with the path of its module and its item; each once, in the order of their bytes.
    ///
    /// Refused for want of memory alone.
    ///
    /// # Example
    ///
    /// ```
    /// for (name, path, item) in map.decls(alloc)? {
    ///     show(name, path, item)?;
    /// }
    /// ```
    pub fn decls(&self, alloc: Global) -> Result<Vec<(&str, &ModulePath, &str)>, Error>
        ensures listed { IfOk result (λ ds. IsListing (items self.now) (map (λ d. (d.0.now, (path_view d.1.now, d.2.now))) ds.items)) }
        ensures refused { IfErr result (λ e. e ≡ error.Memory) }
    {
        let mut decls = Vec::new(alloc);
        match list_decls(&mut decls, &self.entries.decls) {
            Ok(()) => Ok(decls),
            Err(_) => Err(Error::Memory),
        }
    }

    /// Takes the names out into a map of their own, which knows nothing else. It takes no memory.
    pub fn take_decls(&mut self, alloc: Global) -> BasicSourceMap
        ensures decls { items result ≡ items self.old }
        ensures modules { (path : Path) → sources result path ≡ None }
        ensures default { default_text result ≡ None }
        ensures no_decls { (name : Text) → items self.new name ≡ None }
        ensures kept_modules { sources self.new ≡ sources self.old }
        ensures kept_default { default_text self.new ≡ default_text self.old }
    {
        let mut names = BasicSourceMap::new(alloc);
        names.entries.decls = replace(&mut self.entries.decls, BTreeMap::new(alloc));
        names
    }

    /// The names of this map, and what the other knows of modules. It takes no memory.
    pub fn with_sources_of(self, other: BasicSourceMap) -> BasicSourceMap
        ensures decls { items result ≡ items self }
        ensures modules { sources result ≡ sources other }
        ensures default { default_text result ≡ default_text other }
    {
        let mut names = self;
        let mut map = other;
        swap(&mut map.entries.decls, &mut names.entries.decls);
        map
    }

    /// A map that knows the same. Refused for want of memory alone.
    pub fn try_clone(&self, alloc: Global) -> Result<BasicSourceMap, Error>
        ensures equal { IfOk result (KnowsTheSame self.now) }
        ensures refused { IfErr result (λ e. e ≡ error.Memory) }
    {
        match self.entries.try_clone(alloc) {
            Ok(entries) => Ok(BasicSourceMap { entries }),
            Err(error) => Err(error),
        }
    }
}

impl SourceMap for BasicSourceMap {
    ghost use Rattle.std.specs.Prelude.{option_and_then};
    ghost use Rattle.wesl_source_map.specs.BasicView.{items, sources, default_text};

    ghost decl_of = { items };

    ghost source_of = { λ m path. option_map (λ source. source.1) (sources m path) };

    ghost name_of = { λ m path. option_and_then (λ source. source.0) (sources m path) };

    ghost default_of = { default_text };

    fn get_decl(&self, name: &str) -> Option<(&ModulePath, &str)> {
        self.entries.decl_at(name)
    }

    fn get_source(&self, path: &ModulePath) -> Option<&str> {
        self.entries.text_at(path)
    }

    fn get_display_name(&self, path: &ModulePath) -> Option<&str> {
        let (display, _) = self.entries.source_at(path)?;
        text_of(display)
    }

    fn get_default_source(&self) -> Option<&str> {
        text_of(&self.entries.default_source)
    }
}
