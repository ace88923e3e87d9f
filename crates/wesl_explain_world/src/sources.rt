//! The modules of a bundle, as a resolver hands them out.
ghost use Rattle.std.specs.Prelude.{◌≡◌, false};
ghost use Rattle.wesl_tree_names.specs.Path.{path_view, is_relative};

use std::alloc::{AllocError, Global};
use wesl_cond::{Features, condition};
use wesl_program::{BundleSources, sources_of};
use wesl_program_bundle::{BundleModule, Package};
use wesl_resolve_base::{Resolver, not_found, refused};
use wesl_tree::{ModulePath, ResolveError, TranslationUnit};

/// The modules and packages of a bundle, each unit as the features leave it.
#[derive(Drop)]
pub struct Sources<'t> {
    modules: BundleSources<'t>,
    /// The answers for feature flags.
    pub features: Option<Features>,
}

impl<'t> Sources<'t> {
    /// The sources that a bundle lists.
    pub fn new(
        alloc: Global,
        listed: Vec<BundleModule<'t>>,
        packages: Vec<Package<'t>>,
        features: Option<Features>,
    ) -> Result<Sources<'t>, AllocError> {
        Ok(Sources {
            modules: sources_of(alloc, listed, packages)?,
            features,
        })
    }

    /// The unit at a path before a condition is judged.
    pub fn unjudged(
        &mut self,
        alloc: Global,
        path: &ModulePath,
    ) -> Result<TranslationUnit, ResolveError>
        requires { is_relative (path_view path.now) ≡ false }
    {
        self.modules.resolve_module(alloc, path)
    }
}

// Nothing is promised of what is handed out: what is told is promised of the tables alone.
impl Resolver for Sources<'_> {
    ghost ready = { λ _. Unit {0} };

    ghost hands = { λ _ _ _. Unit {0} };

    ghost refuses = { λ _ _ _. Unit {0} };

    ghost source = { λ _ _ _. Unit {0} };

    ghost lacks = { λ _ _ _. Unit {0} };

    ghost shown = { λ _ _ _. Unit {0} };

    fn resolve_source(&mut self, alloc: Global, path: &ModulePath) -> Result<String, ResolveError> {
        Err(not_found(alloc, path, "virtual module"))
    }

    fn resolve_module(
        &mut self,
        alloc: Global,
        path: &ModulePath,
    ) -> Result<TranslationUnit, ResolveError> {
        let unit = match self.modules.resolve_module(alloc, path) {
            Ok(unit) => unit,
            Err(refusal) => return Err(refusal),
        };
        match condition(alloc, unit, self.features.as_ref()) {
            Ok(unit) => Ok(unit),
            Err(fault) => Err(refused(alloc, fault, path, None, None)),
        }
    }

    fn display_name(
        &self,
        _alloc: Global,
        _path: &ModulePath,
    ) -> Result<Option<String>, ResolveError> {
        Ok(None)
    }
}
