//! A resolver that shows the names of its modules, and may lack a source.
use std::alloc::Global;
use wesl_resolve_base::{NoResolver, Resolver};
use wesl_rows_base::Row;
use wesl_tree::TranslationUnit;
use wesl_tree_names::{ModulePath, ResolveError};

/// Shows each path by its text, and refuses the source at one path; else it answers what another resolver answers.
#[derive(Drop)]
pub struct Shown<R> {
    inner: R,
    /// The path at which it has no source. No resolver is asked for a relative one.
    unsourced: ModulePath,
}

impl<R> Shown<R> {
    /// One over another resolver, without a source at the path `unsourced` of a row, if it has one.
    pub fn new(row: Row<'_>, inner: R) -> Shown<R> {
        let unsourced = if row.has("unsourced") {
            row.path("unsourced")
        } else {
            row.path_of("self")
        };
        Shown { inner, unsourced }
    }
}

impl<R: Resolver> Resolver for Shown<R> {
    ghost ready = { λ s. R.ready s.inner };

    ghost hands = { λ s p u. R.hands s.inner p u };

    ghost refuses = { λ s p e. R.refuses s.inner p e };

    ghost source = { λ s p text. R.source s.inner p text };

    ghost lacks = { λ _ p e. Unit {0} };

    ghost shown = { λ _ p name. Unit {0} };

    fn resolve_source(&mut self, alloc: Global, path: &ModulePath) -> Result<String, ResolveError> {
        if self.unsourced == *path {
            NoResolver.resolve_source(alloc, path)
        } else {
            self.inner.resolve_source(alloc, path)
        }
    }

    fn resolve_module(
        &mut self,
        alloc: Global,
        path: &ModulePath,
    ) -> Result<TranslationUnit, ResolveError> {
        self.inner.resolve_module(alloc, path)
    }

    fn display_name(
        &self,
        alloc: Global,
        path: &ModulePath,
    ) -> Result<Option<String>, ResolveError> {
        match path.to_text(alloc) {
            Ok(text) => Ok(Some(text)),
            Err(_) => Err(ResolveError::Memory),
        }
    }
}
