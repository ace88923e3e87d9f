//! A resolver without modules.
ghost use Rattle.std.specs.Prelude.{◌≡◌, None, Ok, codes};
ghost use Rattle.wesl_tree_names.specs.Errors.{IsModuleNotFound};

use crate::refusals::not_found;
use crate::resolver::Resolver;
use std::alloc::Global;
use wesl_tree::TranslationUnit;
use wesl_tree_names::{ModulePath, ResolveError};

/// Has no module, and refuses each path.
#[derive(Clone, Copy, Debug, Default)]
pub struct NoResolver;

impl Resolver for NoResolver {
    ghost hands = { λ _ p u. ⊥ };

    ghost refuses = { λ _ p e. IsModuleNotFound p (codes "no module resolver, imports are effectively disabled here") e };

    ghost source = { λ _ p text. ⊥ };

    ghost lacks = { λ _ p e. IsModuleNotFound p (codes "no module resolver, imports are effectively disabled here") e };

    ghost shown = { λ _ p name. name ≡ None };

    fn resolve_source(&mut self, alloc: Global, path: &ModulePath) -> Result<String, ResolveError> {
        let message = "no module resolver, imports are effectively disabled here";
        Err(not_found(alloc, path, message))
    }

    fn resolve_module(
        &mut self,
        alloc: Global,
        path: &ModulePath,
    ) -> Result<TranslationUnit, ResolveError> {
        let message = "no module resolver, imports are effectively disabled here";
        Err(not_found(alloc, path, message))
    }

    /// No module has a name.
    fn display_name(
        &self,
        _alloc: Global,
        _path: &ModulePath,
    ) -> Result<Option<String>, ResolveError>
        ensures { result ≡ Ok None }
    {
        Ok(None)
    }
}
