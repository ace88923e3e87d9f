//! The resolver of a program: packages, and a resolver for all else.
ghost use Rattle.std.specs.Prelude.{◌≡◌, ◌++◌, ◌∷◌, [], false, IfOk, IfErr, OnOk, OnErr, string_bytes};
ghost use Rattle.wesl_tree_names.specs.Path.{path_view, is_relative};
ghost use Rattle.wesl_tree_names.specs.Errors.{OrMemory};
ghost use Rattle.wesl_tree_names.specs.declared.errors.Error as error;
ghost use Rattle.wesl_tree_syntax.specs.Unit.{spelled};
ghost use Rattle.wesl_tree.specs.Translation.{unit_view};
ghost use Rattle.wesl_resolve.specs.ByOrigin.{IfInPackage};
ghost use Rattle.wesl_resolve_base.specs.Resolver.{MeansTheSame};

use crate::pkg_resolver::PkgResolver;
use std::alloc::Global;
use wesl_resolve_base::{CodegenPkg, Resolver, UnitText};
use wesl_tree::TranslationUnit;
use wesl_tree_names::{Error, ModulePath, PathOrigin, ResolveError};

/// Looks up a path that begins in a named package among packages, and every other in a resolver of the caller's.
pub struct StandardResolver<R, P> {
    local: R,
    packages: PkgResolver<P>,
}

// By hand, so that it is proved once: a derived one is proved in each crate that lets go of a value.
impl<R: Drop, P: Drop> Drop for StandardResolver<R, P> {
    fn drop(self) {
        let StandardResolver {
            local: _,
            packages: _,
        } = self;
    }
}

impl<R, P> StandardResolver<R, P> {
    ghost use Rattle.wesl_resolve.specs.Held.{local_of};
    ghost use Rattle.wesl_resolve.specs.StandardMeaning.{standard_packages, standard_reader};

    /// A resolver without packages, whose sources will be read by `text`. It takes no memory.
    pub fn new(alloc: Global, local: R, text: P) -> StandardResolver<R, P>
        ensures local { local_of result ≡ local }
        ensures text { standard_reader result ≡ text }
        ensures packages { standard_packages result ≡ [] }
    {
        StandardResolver {
            local,
            packages: PkgResolver::new(alloc, text),
        }
    }

    /// Adds a package after the others. Refused for want of memory alone, which leaves the packages as they were.
    pub fn add_package(&mut self, package: CodegenPkg) -> Result<(), Error>
        ensures added { OnOk result (standard_packages self.new ≡ standard_packages self.old ++ «package» ∷ []) }
        ensures kept { OnErr result (standard_packages self.new ≡ standard_packages self.old) }
        ensures text { standard_reader self.new ≡ standard_reader self.old }
        ensures local { local_of self.new ≡ local_of self.old }
        ensures refused { IfErr result (λ e. e ≡ error.Memory) }
    {
        self.packages.add_package(package)
    }
}

impl<R: Resolver, P: UnitText> Resolver for StandardResolver<R, P> {
    ghost use Rattle.wesl_resolve.specs.Held.{local_of, package_resolver_of};
    ghost use Rattle.wesl_resolve.specs.StandardMeaning.{standard_hands, standard_refuses, standard_source, standard_lacks, standard_shown, StandardMeans};

    ghost ready = { λ s. R.ready (local_of s) };

    ghost hands = { standard_hands P.reads R.hands };

    ghost refuses = { standard_refuses P.unreadable R.refuses };

    ghost source = { standard_source R.source };

    ghost lacks = { standard_lacks R.lacks };

    ghost shown = { standard_shown R.shown };

    /// The source of the module at a path. The packages stay as they were, and the local resolver is not asked for a
    /// path that begins in one.
    fn resolve_source(&mut self, alloc: Global, path: &ModulePath) -> Result<String, ResolveError>
        requires asked { R.ready (local_of self.old) }
        requires rooted { is_relative (path_view path.now) ≡ false }
        ensures given { IfOk result (λ text. standard_source R.source self.old (path_view path.now) (string_bytes text)) }
        ensures refused { IfErr result (OrMemory (standard_lacks R.lacks self.old (path_view path.now))) }
        ensures packages { package_resolver_of self.new ≡ package_resolver_of self.old }
        ensures local { MeansTheSame R.hands R.refuses R.source R.lacks R.shown (local_of self.old) (local_of self.new) }
        ensures unasked { IfInPackage (path_view path.now) (local_of self.new ≡ local_of self.old) }
        ensures same { StandardMeans P.reads P.unreadable R.hands R.refuses R.source R.lacks R.shown self.old self.new }
        ensures stays_ready { R.ready (local_of self.new) }
    {
        match path.origin {
            PathOrigin::Package(_) => self.packages.resolve_source(alloc, path),
            _ => self.local.resolve_source(alloc, path),
        }
    }

    /// The unit of the module at a path. The packages stay as they were, and the local resolver is not asked for a
    /// path that begins in one.
    fn resolve_module(
        &mut self,
        alloc: Global,
        path: &ModulePath,
    ) -> Result<TranslationUnit, ResolveError>
        requires asked { R.ready (local_of self.old) }
        requires rooted { is_relative (path_view path.now) ≡ false }
        ensures handed { IfOk result (λ u. standard_hands P.reads R.hands self.old (path_view path.now) (spelled (unit_view u))) }
        ensures refused { IfErr result (OrMemory (standard_refuses P.unreadable R.refuses self.old (path_view path.now))) }
        ensures packages { package_resolver_of self.new ≡ package_resolver_of self.old }
        ensures local { MeansTheSame R.hands R.refuses R.source R.lacks R.shown (local_of self.old) (local_of self.new) }
        ensures unasked { IfInPackage (path_view path.now) (local_of self.new ≡ local_of self.old) }
        ensures same { StandardMeans P.reads P.unreadable R.hands R.refuses R.source R.lacks R.shown self.old self.new }
        ensures stays_ready { R.ready (local_of self.new) }
    {
        match path.origin {
            PathOrigin::Package(_) => self.packages.resolve_module(alloc, path),
            _ => self.local.resolve_module(alloc, path),
        }
    }

    fn display_name(
        &self,
        alloc: Global,
        path: &ModulePath,
    ) -> Result<Option<String>, ResolveError> {
        match path.origin {
            PathOrigin::Package(_) => self.packages.display_name(alloc, path),
            _ => self.local.display_name(alloc, path),
        }
    }
}
