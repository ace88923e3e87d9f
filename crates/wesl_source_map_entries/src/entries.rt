//! What a source map holds.
ghost use Rattle.std.specs.Prelude.{◌≡◌, None, Some, OnOk, OnErr, IfOk, IfErr, option_map, string_bytes};
ghost use Rattle.wesl_tree_names.specs.Path.{Text, Path, path_view};
ghost use Rattle.wesl_tree_names.specs.declared.errors.Error as error;
ghost use Rattle.wesl_source_map_entries.specs.Records.{WritesItem, WritesSource, SameItems, SameSources, source_view};

use crate::decl_table::{copy_decls, put_decl, put_decl_copy};
use crate::source_table::{copy_sources, put_source, put_source_copy};
use crate::texts::copied_text;
use std::alloc::{AllocError, Global};
use std::collections::{BTreeMap, HashMap};
use wesl_tree_names::{Error, ModulePath};

/// The item that each name was last given for, and what was last said of each module.
#[derive(Debug)]
pub struct Entries {
    /// The items that names stand for, each with the path of its module.
    pub decls: BTreeMap<String, (ModulePath, String)>,
    /// The name by which each module is shown, if it has one, and its source.
    pub sources: HashMap<ModulePath, (Option<String>, String)>,
    /// The source of what is in no module.
    pub default_source: Option<String>,
}

// By hand, so that it is proved once: a derived one is proved in each crate that lets go of a value.
impl Drop for Entries {
    fn drop(self) {
        let Entries {
            decls: _,
            sources: _,
            default_source: _,
        } = self;
    }
}

impl Entries {
    ghost use Rattle.wesl_source_map_entries.specs.Held.{held_items, held_sources, held_default, source_or, HoldsTheSame};

    /// No entries. It takes no memory.
    pub fn new(alloc: Global) -> Entries
        ensures decls { (name : Text) → held_items result name ≡ None }
        ensures modules { (path : Path) → held_sources result path ≡ None }
        ensures default { held_default result ≡ None }
    {
        Entries {
            decls: BTreeMap::new(alloc),
            sources: HashMap::new(alloc),
            default_source: None,
        }
    }

    /// Puts `item` of the module at `path` at a name, in place of the item that is there.
    ///
    /// Refused for want of memory alone, which leaves the entries as they were.
    pub fn put_decl(&mut self, name: String, path: ModulePath, item: String) -> Result<(), Error>
        ensures written { OnOk result (WritesItem (string_bytes name) (path_view path, string_bytes item) (held_items self.old) (held_items self.new)) }
        ensures kept { OnErr result (SameItems (held_items self.old) (held_items self.new)) }
        ensures modules { SameSources (held_sources self.old) (held_sources self.new) }
        ensures default { held_default self.new ≡ held_default self.old }
        ensures refused { IfErr result (λ e. e ≡ error.Memory) }
    {
        put_decl(&mut self.decls, name, path, item)
    }

    /// Puts an item at a name, as `put_decl` does, by copies of them.
    ///
    /// Refused for want of memory alone, which leaves the entries as they were.
    pub fn copy_decl(
        &mut self,
        alloc: Global,
        name: &str,
        path: &ModulePath,
        item: &str,
    ) -> Result<(), Error>
        ensures written { OnOk result (WritesItem name.now (path_view path.now, item.now) (held_items self.old) (held_items self.new)) }
        ensures kept { OnErr result (SameItems (held_items self.old) (held_items self.new)) }
        ensures modules { SameSources (held_sources self.old) (held_sources self.new) }
        ensures default { held_default self.new ≡ held_default self.old }
        ensures refused { IfErr result (λ e. e ≡ error.Memory) }
    {
        put_decl_copy(&mut self.decls, alloc, name, path, item)
    }

    /// Puts the source of the module at `path`, and the name by which it is shown, in place of earlier ones.
    ///
    /// Refused for want of memory alone, which leaves the entries as they were.
    pub fn put_source(
        &mut self,
        path: ModulePath,
        display: Option<String>,
        text: String,
    ) -> Result<(), Error>
        ensures written { OnOk result (WritesSource (path_view path) (option_map string_bytes display, string_bytes text)
            (held_sources self.old) (held_sources self.new)) }
        ensures kept { OnErr result (SameSources (held_sources self.old) (held_sources self.new)) }
        ensures decls { SameItems (held_items self.old) (held_items self.new) }
        ensures default { held_default self.new ≡ held_default self.old }
        ensures refused { IfErr result (λ e. e ≡ error.Memory) }
    {
        put_source(&mut self.sources, path, display, text)
    }

    /// Puts what is said of a module, as `put_source` does, by copies of its path and of its source.
    ///
    /// Refused for want of memory alone, which leaves the entries as they were.
    pub fn copy_source(
        &mut self,
        alloc: Global,
        path: &ModulePath,
        display: Option<String>,
        text: &str,
    ) -> Result<(), Error>
        ensures written { OnOk result (WritesSource (path_view path.now) (option_map string_bytes display, text.now)
            (held_sources self.old) (held_sources self.new)) }
        ensures kept { OnErr result (SameSources (held_sources self.old) (held_sources self.new)) }
        ensures decls { SameItems (held_items self.old) (held_items self.new) }
        ensures default { held_default self.new ≡ held_default self.old }
        ensures refused { IfErr result (λ e. e ≡ error.Memory) }
    {
        put_source_copy(&mut self.sources, alloc, path, display, text)
    }

    /// Adds what others hold to entries that hold nothing.
    fn copy_from(&mut self, alloc: Global, other: &Entries) -> Result<(), Error>
        requires no_decls { (name : Text) → held_items self.old name ≡ None }
        requires no_modules { (path : Path) → held_sources self.old path ≡ None }
        ensures equal { OnOk result (HoldsTheSame other.now self.new) }
        ensures refused { IfErr result (λ e. e ≡ error.Memory) }
    {
        self.default_source = copied_text(&other.default_source)?;
        copy_decls(&mut self.decls, alloc, &other.decls)?;
        copy_sources(&mut self.sources, alloc, &other.sources)
    }

    /// Entries that hold the same. Refused for want of memory alone.
    pub fn try_clone(&self, alloc: Global) -> Result<Entries, Error>
        ensures equal { IfOk result (HoldsTheSame self.now) }
        ensures refused { IfErr result (λ e. e ≡ error.Memory) }
    {
        let mut copy = Entries::new(alloc);
        match copy.copy_from(alloc, self) {
            Ok(()) => Ok(copy),
            Err(error) => Err(error),
        }
    }

    /// The path of the module and the item of it that `name` stands for.
    pub fn decl_at(&self, name: &str) -> Option<(&ModulePath, &str)>
        ensures { option_map (λ d. (path_view d.0.now, d.1.now)) result ≡ held_items self.now name.now }
    {
        let (path, item) = self.decls.get(name)?;
        Some((path, item.as_str()))
    }

    /// What was last said of the module at `path`.
    pub fn source_at(&self, path: &ModulePath) -> Option<&(Option<String>, String)>
        ensures { option_map (λ said. source_view said.now) result ≡ held_sources self.now (path_view path.now) }
    {
        self.sources.get(path)
    }

    /// The source of the module at `path`.
    pub fn text_at(&self, path: &ModulePath) -> Option<&str>
        ensures { option_map (λ text. text.now) result ≡ option_map (λ source. source.1) (held_sources self.now (path_view path.now)) }
    {
        let (_, text) = self.source_at(path)?;
        Some(text.as_str())
    }

    /// Makes the source of the module at `path` that of what is in no module, where there is one.
    ///
    /// Refused for want of memory, which leaves the entries as they were.
    pub fn set_default_from(&mut self, alloc: Global, path: &ModulePath) -> Result<(), AllocError>
        ensures default { OnOk result (held_default self.new ≡ source_or (held_sources self.old (path_view path.now)) (held_default self.old)) }
        ensures kept { OnErr result (held_default self.new ≡ held_default self.old) }
        ensures decls { SameItems (held_items self.old) (held_items self.new) }
        ensures modules { SameSources (held_sources self.old) (held_sources self.new) }
    {
        let Some(text) = self.text_at(path) else {
            return Ok(());
        };
        match String::from_str(alloc, text) {
            Ok(text) => {
                self.default_source = Some(text);
                Ok(())
            }
            Err(refusal) => Err(refusal),
        }
    }
}
