//! A resolver and a mangler that record what they are asked.
ghost use Rattle.std.specs.Prelude.{◌≡◌, ◌⊎◌, ℕ, List, false, true, None, OnOk, OnErr, IfOk, IfErr, string_bytes};
ghost use Rattle.wesl_tree_syntax.specs.Tree.{Tree};
ghost use Rattle.wesl_tree_syntax.specs.Unit.{spelled};
ghost use Rattle.wesl_tree.specs.Translation.{unit_view};
ghost use Rattle.wesl_tree_names.specs.Path.{Text, Path, path_view, is_relative};
ghost use Rattle.wesl_tree_names.specs.Errors.{OrMemory};
ghost use Rattle.wesl_tree_names.specs.declared.errors.Error as error;
ghost use Rattle.wesl_tree_names.specs.declared.errors.ResolveError as resolve_error;
ghost use Rattle.wesl_mangle_forms.specs.Mangler.{ReadsOn};
ghost use Rattle.wesl_resolve_base.specs.Resolver.{MeansTheSame};
ghost use Rattle.wesl_source_map_entries.specs.Records.{WritesItem, SameItems, SameSources};
ghost use Rattle.wesl_source_map_entries.specs.Held.{source_or};
ghost use Rattle.wesl_source_map.specs.BasicView.{items, sources, default_text, KnowsTheSame};
ghost use Rattle.wesl_source_map.specs.Recording.{Records, RecordsAsked, IsAskedAlone, HasNamedItem};

use crate::basic::BasicSourceMap;
use std::alloc::Global;
use wesl_mangle_forms::Mangler;
use wesl_resolve_base::Resolver;
use wesl_source_map_entries::{as_resolved, unless_memory};
use wesl_tree::TranslationUnit;
use wesl_tree_names::{Error, ModulePath, Names, ResolveError};
use wesl_tree_syntax::TypeExpression;

/// Passes on what a resolver and a mangler answer, and records it.
///
/// As a resolver it means what its resolver means, and as a mangler it gives the names of its mangler. It records the
/// source of each module that it is asked for, with the name by which the module is shown, and each name that it gives
/// with its module and item. Nothing is recorded unasked, the root's source neither.
///
/// # Example
///
/// ```
/// let mut mapper = SourceMapper::new(alloc, root, resolver, EscapeMangler);
/// let unit = mapper.resolve_module(alloc, &path)?;
/// let name = mapper.mangle(alloc, &path, "main")?;
/// let map = mapper.finish(alloc).unwrap_or_else(|map| map);
/// ```
#[derive(Drop)]
pub struct SourceMapper<R, M> {
    /// The path of the module whose source becomes the default source.
    pub root: ModulePath,
    /// What is asked for modules.
    pub resolver: R,
    /// What is asked for names.
    pub mangler: M,
    /// What is recorded.
    pub sourcemap: BasicSourceMap,
}

impl<R, M> SourceMapper<R, M> {
    /// A mapper of the modules of `resolver` and the names of `mangler`, with nothing recorded. It takes no memory.
    pub fn new(alloc: Global, root: ModulePath, resolver: R, mangler: M) -> SourceMapper<R, M>
        ensures root { result.root ≡ root }
        ensures resolver { result.resolver ≡ resolver }
        ensures mangler { result.mangler ≡ mangler }
        ensures decls { (name : Text) → items result.sourcemap name ≡ None }
        ensures modules { (path : Path) → sources result.sourcemap path ≡ None }
        ensures default { default_text result.sourcemap ≡ None }
    {
        SourceMapper {
            root,
            resolver,
            mangler,
            sourcemap: BasicSourceMap::new(alloc),
        }
    }
}

impl<R: Drop, M: Drop> SourceMapper<R, M> {
    /// What was recorded, with the root's source as default source, where one was recorded.
    ///
    /// Where memory is refused the map comes back as it was recorded, without that default source.
    pub fn finish(self, alloc: Global) -> Result<BasicSourceMap, BasicSourceMap>
        ensures decls { IfOk result (λ map. SameItems (items self.sourcemap) (items map)) }
        ensures modules { IfOk result (λ map. SameSources (sources self.sourcemap) (sources map)) }
        ensures default { IfOk result (λ map. default_text map
            ≡ source_or (sources self.sourcemap (path_view self.root)) (default_text self.sourcemap)) }
        ensures kept { IfErr result (KnowsTheSame self.sourcemap) }
    {
        let mut sourcemap = self.sourcemap;
        let set = sourcemap.entries.set_default_from(alloc, &self.root);
        match set {
            Ok(()) => Ok(sourcemap),
            Err(_) => Err(sourcemap),
        }
    }
}

impl<R: Resolver, M> SourceMapper<R, M> {
    /// Records `text` as the source of the module at `path`, with the name by which the resolver shows the module.
    fn record_source(
        &mut self,
        alloc: Global,
        path: &ModulePath,
        text: &str,
    ) -> Result<(), ResolveError>
        requires asked { R.ready self.old.resolver }
        requires rooted { is_relative (path_view path.now) ≡ false }
        ensures recorded { OnOk result (Records (R.shown self.old.resolver (path_view path.now)) (path_view path.now) text.now (sources self.old.sourcemap) (sources self.new.sourcemap)) }
        ensures refused { IfErr result (λ e. e ≡ resolve_error.Memory) }
        ensures kept { OnErr result (SameSources (sources self.old.sourcemap) (sources self.new.sourcemap)) }
        ensures resolver { self.new.resolver ≡ self.old.resolver }
        ensures beside { IsAskedAlone self.old.mangler self.new.mangler self.old.root self.new.root self.old.sourcemap self.new.sourcemap }
    {
        match self.resolver.display_name(alloc, path) {
            Ok(display) => {
                let entries = &mut self.sourcemap.entries;
                let recorded = entries.copy_source(alloc, path, display, text);
                as_resolved(recorded)
            }
            Err(error) => Err(error),
        }
    }

    /// Records the source of the module at `path`, where the resolver gives one.
    fn record_given(&mut self, alloc: Global, path: &ModulePath) -> Result<(), ResolveError>
        requires asked { R.ready self.old.resolver }
        requires rooted { is_relative (path_view path.now) ≡ false }
        ensures recorded { OnOk result (RecordsAsked R.Resolver self.old.resolver (path_view path.now) (sources self.old.sourcemap) (sources self.new.sourcemap)) }
        ensures refused { IfErr result (λ e. e ≡ resolve_error.Memory) }
        ensures kept { OnErr result (SameSources (sources self.old.sourcemap) (sources self.new.sourcemap)) }
        ensures same { MeansTheSame R.hands R.refuses R.source R.lacks R.shown self.old.resolver self.new.resolver }
        ensures stays_ready { R.ready self.new.resolver }
        ensures beside { IsAskedAlone self.old.mangler self.new.mangler self.old.root self.new.root self.old.sourcemap self.new.sourcemap }
    {
        match self.resolver.resolve_source(alloc, path) {
            Ok(text) => self.record_source(alloc, path, text.as_str()),
            Err(refusal) => unless_memory(refusal),
        }
    }
}

impl<R: Resolver, M> Resolver for SourceMapper<R, M> {
    ghost ready = { λ s. R.ready s.resolver };

    ghost hands = { λ s. R.hands s.resolver };

    ghost refuses = { λ s. R.refuses s.resolver };

    ghost source = { λ s. R.source s.resolver };

    ghost lacks = { λ s. R.lacks s.resolver };

    ghost shown = { λ s. R.shown s.resolver };

    /// The source of the module at a path, which is recorded with the name by which the module is shown.
    ///
    /// Refused as by the resolver, and for want of memory; the sources that are recorded are then as before.
    fn resolve_source(&mut self, alloc: Global, path: &ModulePath) -> Result<String, ResolveError>
        requires asked { R.ready self.old.resolver }
        requires rooted { is_relative (path_view path.now) ≡ false }
        ensures given { IfOk result (λ text. R.source self.old.resolver (path_view path.now) (string_bytes text)) }
        ensures recorded { IfOk result (λ text. Records (R.shown self.old.resolver (path_view path.now)) (path_view path.now) (string_bytes text)
            (sources self.old.sourcemap) (sources self.new.sourcemap)) }
        ensures refused { IfErr result (OrMemory (R.lacks self.old.resolver (path_view path.now))) }
        ensures kept { OnErr result (SameSources (sources self.old.sourcemap) (sources self.new.sourcemap)) }
        ensures same { MeansTheSame R.hands R.refuses R.source R.lacks R.shown self.old.resolver self.new.resolver }
        ensures stays_ready { R.ready self.new.resolver }
        ensures beside { IsAskedAlone self.old.mangler self.new.mangler self.old.root self.new.root self.old.sourcemap self.new.sourcemap }
    {
        let given = self.resolver.resolve_source(alloc, path);
        match given {
            Ok(text) => {
                let recorded = self.record_source(alloc, path, text.as_str());
                match recorded {
                    Ok(()) => Ok(text),
                    Err(refusal) => Err(refusal),
                }
            }
            Err(refusal) => Err(refusal),
        }
    }

    /// The unit of the module at a path, as the resolver hands it out. The module's source is recorded, with the name
    /// by which it is shown, where the resolver gives a source too.
    ///
    /// Refused as by the resolver, and for want of memory; the sources that are recorded are then as before.
    fn resolve_module(
        &mut self,
        alloc: Global,
        path: &ModulePath,
    ) -> Result<TranslationUnit, ResolveError>
        requires asked { R.ready self.old.resolver }
        requires rooted { is_relative (path_view path.now) ≡ false }
        ensures handed { IfOk result (λ u. R.hands self.old.resolver (path_view path.now) (spelled (unit_view u))) }
        ensures recorded { OnOk result (RecordsAsked R.Resolver self.old.resolver (path_view path.now) (sources self.old.sourcemap) (sources self.new.sourcemap)) }
        ensures refused { IfErr result (OrMemory (R.refuses self.old.resolver (path_view path.now))) }
        ensures kept { OnErr result (SameSources (sources self.old.sourcemap) (sources self.new.sourcemap)) }
        ensures same { MeansTheSame R.hands R.refuses R.source R.lacks R.shown self.old.resolver self.new.resolver }
        ensures stays_ready { R.ready self.new.resolver }
        ensures beside { IsAskedAlone self.old.mangler self.new.mangler self.old.root self.new.root self.old.sourcemap self.new.sourcemap }
    {
        match self.resolver.resolve_module(alloc, path) {
            Ok(unit) => match self.record_given(alloc, path) {
                Ok(()) => Ok(unit),
                Err(refusal) => Err(refusal),
            },
            Err(refusal) => Err(refusal),
        }
    }

    fn display_name(
        &self,
        alloc: Global,
        path: &ModulePath,
    ) -> Result<Option<String>, ResolveError> {
        self.resolver.display_name(alloc, path)
    }
}

impl<R, M: Mangler> Mangler for SourceMapper<R, M> {
    ghost name_of = { λ s. M.name_of s.mangler };

    ghost recorded = { λ s. items s.sourcemap };

    ghost writes = { λ _. true };

    ghost item_of = { λ s. M.item_of s.mangler };

    ghost variant_of = { λ s. M.variant_of s.mangler };

    /// The name that the mangler gives to `item` of the module at `path`, which is recorded for them.
    ///
    /// Refused for want of memory alone; the names that are recorded are then as before. The mangler's own record, if
    /// it keeps one, may then have the name.
    fn mangle(&mut self, alloc: Global, path: &ModulePath, item: &str) -> Result<String, Error>
        ensures named { IfOk result (λ name. string_bytes name ≡ M.name_of self.old.mangler (path_view path.now) item.now) }
        ensures written { OnOk result (WritesItem (M.name_of self.old.mangler (path_view path.now) item.now) (path_view path.now, item.now)
            (items self.old.sourcemap) (items self.new.sourcemap)) }
        ensures unwritten { OnErr result (SameItems (items self.old.sourcemap) (items self.new.sourcemap)) }
        ensures refused { IfErr result (λ e. e ≡ error.Memory) }
        ensures same { (p : Path) (i : Text) → M.name_of self.new.mangler p i ≡ M.name_of self.old.mangler p i }
        ensures same_variants { (names : List Text) (i : Text) (n : ℕ) (ts : List Tree)
            → M.variant_of self.new.mangler names i n ts ≡ M.variant_of self.old.mangler names i n ts }
        ensures reads { ReadsOn (M.name_of self.old.mangler (path_view path.now) item.now) (path_view path.now, item.now)
            (M.item_of self.old.mangler) (M.item_of self.new.mangler) }
        ensures inner { OnOk result (HasNamedItem M.Mangler self.old.mangler self.new.mangler (path_view path.now, item.now)) }
        ensures inner_left { OnErr result (SameItems (M.recorded self.old.mangler) (M.recorded self.new.mangler)
            ⊎ HasNamedItem M.Mangler self.old.mangler self.new.mangler (path_view path.now, item.now)) }
        ensures resolver { self.new.resolver ≡ self.old.resolver }
        ensures root { self.new.root ≡ self.old.root }
        ensures modules { SameSources (sources self.old.sourcemap) (sources self.new.sourcemap) }
        ensures default { default_text self.new.sourcemap ≡ default_text self.old.sourcemap }
    {
        match self.mangler.mangle(alloc, path, item) {
            Ok(name) => {
                let entries = &mut self.sourcemap.entries;
                let recorded = entries.copy_decl(alloc, name.as_str(), path, item);
                match recorded {
                    Ok(()) => Ok(name),
                    Err(error) => Err(error),
                }
            }
            Err(error) => Err(error),
        }
    }

    fn unmangle(
        &self,
        alloc: Global,
        mangled: &str,
    ) -> Result<Option<(ModulePath, String)>, Error> {
        self.mangler.unmangle(alloc, mangled)
    }

    fn mangle_types(
        &self,
        alloc: Global,
        names: &Names,
        item: &str,
        variant: u32,
        types: &[TypeExpression],
    ) -> Result<String, Error> {
        self.mangler
            .mangle_types(alloc, names, item, variant, types)
    }
}
