//! Modules that are held in memory, as texts.
ghost use Rattle.std.specs.Prelude.{◌≡◌, false, None, Some, Ok, [], IfOk, IfErr, OnOk, OnErr, map, option_map, string_bytes};
ghost use Rattle.wesl_tree_names.specs.Path.{Text, Path, path_view, is_relative};
ghost use Rattle.wesl_tree_names.specs.Errors.{OrMemory};
ghost use Rattle.wesl_tree_names.specs.declared.errors.Error as error;
ghost use Rattle.wesl_tree_syntax.specs.Unit.{spelled};
ghost use Rattle.wesl_tree.specs.Translation.{unit_view};
ghost use Rattle.wesl_resolve.specs.Texts.{texts_of, text_at, put, IsLast, IsPut, IsMissing, IsReadAt, IsRefusedAt};

use indexmap::IndexMap;
use std::alloc::Global;
use wesl_resolve_base::{Resolver, UnitText, copied, not_found, read_module};
use wesl_tree::TranslationUnit;
use wesl_tree_names::{Error, ModulePath, ResolveError};

/// Puts a text at a path, in the place of the one that is there.
fn put(
    texts: &mut IndexMap<ModulePath, String>,
    path: ModulePath,
    text: String,
) -> Result<(), Error>
    ensures done { OnOk result (texts_of texts.new.entries ≡ put (path_view path) (string_bytes text) (texts_of texts.old.entries)) }
    ensures last { OnOk result (IsLast (path_view path) (string_bytes text) (texts_of texts.old.entries) (texts_of texts.new.entries)) }
    ensures kept { OnErr result (texts_of texts.new.entries ≡ texts_of texts.old.entries) }
    ensures refused { IfErr result (λ e. e ≡ error.Memory) }
{
    texts.insert(path, text)?;
    Ok(())
}

/// Lists the paths and the texts of modules, in a list that has none.
fn list<'m>(
    listed: &mut Vec<(&'m ModulePath, &'m str)>,
    modules: &'m IndexMap<ModulePath, String>,
) -> Result<(), Error>
    requires empty { listed.old.items ≡ [] }
    ensures done { OnOk result (map (λ m. (path_view m.0.now, m.1.now)) listed.new.items ≡ texts_of modules.now.entries) }
    ensures refused { IfErr result (λ e. e ≡ error.Memory) }
{
    for (path, text) in modules.iter() {
        listed.push((path, text.as_str()))?;
    }
    Ok(())
}

/// Hands out the modules that were added, each read from its text when it is asked for.
///
/// At each path the text that was added last counts. A text that cannot be read is refused with the error of its
/// reading, the path and the text as source. No module has a display name.
pub struct VirtualResolver<P> {
    text: P,
    modules: IndexMap<ModulePath, String>,
}

// By hand, so that it is proved once: a derived one is proved in each crate that lets go of a value.
impl<P: Drop> Drop for VirtualResolver<P> {
    fn drop(self) {
        let VirtualResolver {
            text: _,
            modules: _,
        } = self;
    }
}

impl<P> VirtualResolver<P> {
    ghost use Rattle.wesl_resolve.specs.Held.{held_sources, reader_of};

    /// A resolver without modules, which will read texts by `text`. It takes no memory.
    pub fn new(alloc: Global, text: P) -> VirtualResolver<P>
        ensures text { reader_of result ≡ text }
        ensures modules { held_sources result ≡ [] }
    {
        VirtualResolver {
            text,
            modules: IndexMap::new(alloc),
        }
    }

    /// Adds the text of the module at a path, which is not relative. A path that is there keeps its place and
    /// takes the new text. Refused for want of memory alone, which leaves the modules as they were.
    pub fn add_module(&mut self, path: ModulePath, source: String) -> Result<(), Error>
        requires { is_relative (path_view path) ≡ false }
        ensures added { OnOk result (held_sources self.new ≡ put (path_view path) (string_bytes source) (held_sources self.old)) }
        ensures last { OnOk result (IsLast (path_view path) (string_bytes source) (held_sources self.old) (held_sources self.new)) }
        ensures kept { OnErr result (held_sources self.new ≡ held_sources self.old) }
        ensures text { reader_of self.new ≡ reader_of self.old }
        ensures refused { IfErr result (λ e. e ≡ error.Memory) }
    {
        put(&mut self.modules, path, source)
    }

    /// The text of the module at a path. Refused where there is none, and for want of memory.
    pub fn get_module(&self, alloc: Global, path: &ModulePath) -> Result<&str, ResolveError>
        ensures found { IfOk result (λ text. text_at (path_view path.now) (held_sources self.now) ≡ Some text.now) }
        ensures missing { IfErr result (OrMemory (IsMissing (held_sources self.now) (path_view path.now))) }
    {
        match self.modules.get(path) {
            Some(source) => Ok(source.as_str()),
            None => Err(not_found(alloc, path, "virtual module")),
        }
    }

    /// The paths and the texts of the modules, in the order in which the paths were first added. Refused for want
    /// of memory alone.
    pub fn modules(&self, alloc: Global) -> Result<Vec<(&ModulePath, &str)>, Error>
        ensures listed { IfOk result (λ ms. map (λ m. (path_view m.0.now, m.1.now)) ms.items ≡ held_sources self.now) }
        ensures refused { IfErr result (λ e. e ≡ error.Memory) }
    {
        let mut modules = Vec::new(alloc);
        match list(&mut modules, &self.modules) {
            Ok(()) => Ok(modules),
            Err(error) => Err(error),
        }
    }
}

impl<P: UnitText> VirtualResolver<P> {
    ghost use Rattle.wesl_resolve.specs.Held.{held_sources, reader_of};

    /// Adds a unit as the module at a path, which is not relative: the text that is printed of it. Refused for
    /// want of memory alone, which leaves the modules as they were.
    pub fn add_translation_unit(
        &mut self,
        alloc: Global,
        path: ModulePath,
        unit: TranslationUnit,
    ) -> Result<(), Error>
        requires { is_relative (path_view path) ≡ false }
        ensures added { OnOk result ((text : Text) × P.prints (reader_of self.old) (spelled (unit_view unit)) text
            × IsPut (path_view path) text (held_sources self.old) (held_sources self.new)) }
        ensures kept { OnErr result (held_sources self.new ≡ held_sources self.old) }
        ensures text { reader_of self.new ≡ reader_of self.old }
        ensures refused { IfErr result (λ e. e ≡ error.Memory) }
    {
        match self.text.print(alloc, &unit).ok() {
            Some(source) => self.add_module(path, source),
            None => Err(Error::Memory),
        }
    }

    /// The unit of the module at a path.
    fn read_at(&self, alloc: Global, path: &ModulePath) -> Result<TranslationUnit, ResolveError>
        ensures read { IfOk result (λ u. IsReadAt (P.reads (reader_of self.now)) (held_sources self.now) (path_view path.now) (spelled (unit_view u))) }
        ensures refused { IfErr result (OrMemory (IsRefusedAt (P.unreadable (reader_of self.now)) (held_sources self.now) (path_view path.now))) }
    {
        match self.get_module(alloc, path) {
            Ok(source) => read_module(&self.text, alloc, path, source),
            Err(refusal) => Err(refusal),
        }
    }
}

impl<P: UnitText> Resolver for VirtualResolver<P> {
    ghost use Rattle.wesl_resolve.specs.Texts.{text_at, IsMissing, IsReadAt, IsRefusedAt};
    ghost use Rattle.wesl_resolve.specs.Held.{held_sources, reader_of};

    ghost hands = { λ s p u. IsReadAt (P.reads (reader_of s)) (held_sources s) p u };

    ghost refuses = { λ s p e. IsRefusedAt (P.unreadable (reader_of s)) (held_sources s) p e };

    ghost source = { λ s p text. text_at p (held_sources s) ≡ Some text };

    ghost lacks = { λ s p e. IsMissing (held_sources s) p e };

    ghost shown = { λ _ p name. name ≡ None };

    /// The text of the module at a path. Refused where there is none, and for want of memory.
    fn resolve_source(&mut self, alloc: Global, path: &ModulePath) -> Result<String, ResolveError>
        ensures given { IfOk result (λ text. text_at (path_view path.now) (held_sources self.old) ≡ Some (string_bytes text)) }
        ensures refused { IfErr result (OrMemory (IsMissing (held_sources self.old) (path_view path.now))) }
        ensures unchanged { self.new ≡ self.old }
    {
        match self.get_module(alloc, path) {
            Ok(source) => copied(alloc, source),
            Err(refusal) => Err(refusal),
        }
    }

    /// The unit that the text of the module at a path is read as. Refused where there is no text or it cannot be
    /// read, and for want of memory.
    fn resolve_module(
        &mut self,
        alloc: Global,
        path: &ModulePath,
    ) -> Result<TranslationUnit, ResolveError>
        ensures handed { IfOk result (λ u. IsReadAt (P.reads (reader_of self.old)) (held_sources self.old) (path_view path.now) (spelled (unit_view u))) }
        ensures refused { IfErr result (OrMemory (IsRefusedAt (P.unreadable (reader_of self.old)) (held_sources self.old) (path_view path.now))) }
        ensures unchanged { self.new ≡ self.old }
    {
        self.read_at(alloc, path)
    }

    /// No module has a name.
    fn display_name(
        &self,
        _alloc: Global,
        _path: &ModulePath,
    ) -> Result<Option<String>, ResolveError>
        ensures { result ≡ Ok None }
    {
        Ok(None)
    }
}
