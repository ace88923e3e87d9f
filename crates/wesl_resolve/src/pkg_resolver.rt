//! Modules of packages.
ghost use Rattle.std.specs.Prelude.{◌≡◌, ◌++◌, ◌∷◌, [], None, Ok, IfOk, IfErr, OnOk, OnErr, string_bytes};
ghost use Rattle.wesl_tree_names.specs.Path.{path_view};
ghost use Rattle.wesl_tree_names.specs.Errors.{OrMemory};
ghost use Rattle.wesl_tree_names.specs.declared.errors.Error as error;
ghost use Rattle.wesl_tree_syntax.specs.Unit.{spelled};
ghost use Rattle.wesl_tree.specs.Translation.{unit_view};
ghost use Rattle.wesl_resolve_base.specs.Packages.{IsMissingIn, IsReadIn, IsRefusedIn, IsSourceIn, source_of};
ghost use Rattle.wesl_resolve.specs.Places.{AreNoted, HaveNames};

use crate::package_index::PackageIndex;
use std::alloc::Global;
use wesl_resolve_base::{CodegenModule, CodegenPkg, Resolver, UnitText, copied, read_module};
use wesl_tree::TranslationUnit;
use wesl_tree_names::{Error, ModulePath, ResolveError};

/// Hands out the modules of packages, each read from its source when it is asked for.
///
/// A path leads by the name of its package, of which each part after a slash is a dependency of the one before, and
/// then by its components, each a submodule of the one before. Of several with one name the first counts. A source
/// that cannot be read is refused with the error of its reading, the path and the source. No module has a display
/// name.
pub struct PkgResolver<P> {
    text: P,
    packages: Vec<CodegenPkg>,
    // what is noted of them, so that a path leads to its module by one look-up
    index: PackageIndex,
    pub ghost named: { HaveNames packages.items index.names },
    pub ghost noted: { AreNoted packages.items index.places },
}

// By hand, so that it is proved once: a derived one is proved in each crate that lets go of a value.
impl<P: Drop> Drop for PkgResolver<P> {
    fn drop(self) {
        let PkgResolver {
            text: _,
            packages: _,
            index: _,
        } = self;
    }
}

impl<P> PkgResolver<P> {
    ghost use Rattle.wesl_resolve.specs.Held.{added_packages, package_reader_of};

    /// A resolver without packages, which will read sources by `text`. It takes no memory.
    pub fn new(alloc: Global, text: P) -> PkgResolver<P>
        ensures text { package_reader_of result ≡ text }
        ensures packages { added_packages result ≡ [] }
    {
        PkgResolver {
            text,
            packages: Vec::new(alloc),
            index: PackageIndex::new(alloc),
        }
    }

    /// Adds a package after the others. Refused for want of memory alone, which leaves the packages as they were.
    pub fn add_package(&mut self, package: CodegenPkg) -> Result<(), Error>
        ensures added { OnOk result (added_packages self.new ≡ added_packages self.old ++ «package» ∷ []) }
        ensures kept { OnErr result (added_packages self.new ≡ added_packages self.old) }
        ensures text { package_reader_of self.new ≡ package_reader_of self.old }
        ensures refused { IfErr result (λ e. e ≡ error.Memory) }
    {
        self.index.push(&mut self.packages, package)
    }
}

impl<P> PkgResolver<P> {
    ghost use Rattle.wesl_resolve.specs.Held.{added_packages};

    /// A module that says what the one at a path says.
    fn module_at(&self, alloc: Global, path: &ModulePath) -> Result<&CodegenModule, ResolveError>
        ensures found { IfOk result (λ m. IsSourceIn (added_packages self.now) (path_view path.now) (source_of m.now)) }
        ensures missing { IfErr result (OrMemory (IsMissingIn (added_packages self.now) (path_view path.now))) }
    {
        self.index.module_at(alloc, &self.packages, path)
    }
}

impl<P: UnitText> PkgResolver<P> {
    ghost use Rattle.wesl_resolve.specs.Held.{added_packages, package_reader_of};

    /// The unit of the module at a path.
    fn read_at(&self, alloc: Global, path: &ModulePath) -> Result<TranslationUnit, ResolveError>
        ensures read { IfOk result (λ u. IsReadIn (P.reads (package_reader_of self.now)) (added_packages self.now) (path_view path.now) (spelled (unit_view u))) }
        ensures refused { IfErr result (OrMemory (IsRefusedIn (P.unreadable (package_reader_of self.now)) (added_packages self.now) (path_view path.now))) }
    {
        match self.module_at(alloc, path) {
            Ok(module) => read_module(&self.text, alloc, path, module.source.as_str()),
            Err(refusal) => Err(refusal),
        }
    }
}

impl<P: UnitText> Resolver for PkgResolver<P> {
    ghost use Rattle.wesl_resolve_base.specs.Packages.{IsMissingIn, IsReadIn, IsRefusedIn, IsSourceIn};
    ghost use Rattle.wesl_resolve.specs.Held.{added_packages, package_reader_of};

    ghost hands = { λ s p u. IsReadIn (P.reads (package_reader_of s)) (added_packages s) p u };

    ghost refuses = { λ s p e. IsRefusedIn (P.unreadable (package_reader_of s)) (added_packages s) p e };

    ghost source = { λ s p text. IsSourceIn (added_packages s) p text };

    ghost lacks = { λ s p e. IsMissingIn (added_packages s) p e };

    ghost shown = { λ _ p name. name ≡ None };

    /// The source of the module at a path. Refused where there is none, and for want of memory.
    fn resolve_source(&mut self, alloc: Global, path: &ModulePath) -> Result<String, ResolveError>
        ensures given { IfOk result (λ text. IsSourceIn (added_packages self.old) (path_view path.now) (string_bytes text)) }
        ensures refused { IfErr result (OrMemory (IsMissingIn (added_packages self.old) (path_view path.now))) }
        ensures unchanged { self.new ≡ self.old }
    {
        match self.module_at(alloc, path) {
            Ok(module) => copied(alloc, module.source.as_str()),
            Err(refusal) => Err(refusal),
        }
    }

    /// The unit that the source of the module at a path is read as. Refused where there is no module or its source
    /// cannot be read, and for want of memory.
    fn resolve_module(
        &mut self,
        alloc: Global,
        path: &ModulePath,
    ) -> Result<TranslationUnit, ResolveError>
        ensures handed { IfOk result (λ u. IsReadIn (P.reads (package_reader_of self.old)) (added_packages self.old) (path_view path.now) (spelled (unit_view u))) }
        ensures refused { IfErr result (OrMemory (IsRefusedIn (P.unreadable (package_reader_of self.old)) (added_packages self.old) (path_view path.now))) }
        ensures unchanged { self.new ≡ self.old }
    {
        self.read_at(alloc, path)
    }

    /// No module has a name.
    fn display_name(
        &self,
        _alloc: Global,
        _path: &ModulePath,
    ) -> Result<Option<String>, ResolveError>
        ensures { result ≡ Ok None }
    {
        Ok(None)
    }
}
