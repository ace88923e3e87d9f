//! What is behind a box or a reference answers for it.
use crate::resolver::Resolver;
use std::alloc::Global;
use wesl_tree::TranslationUnit;
use wesl_tree_names::{ModulePath, ResolveError};

impl<T: Resolver> Resolver for Box<T> {
    ghost ready = { λ b. T.ready b.value };

    ghost hands = { λ b. T.hands b.value };

    ghost refuses = { λ b. T.refuses b.value };

    ghost source = { λ b. T.source b.value };

    ghost lacks = { λ b. T.lacks b.value };

    ghost shown = { λ b. T.shown b.value };

    fn resolve_source(&mut self, alloc: Global, path: &ModulePath) -> Result<String, ResolveError> {
        (**self).resolve_source(alloc, path)
    }

    fn resolve_module(
        &mut self,
        alloc: Global,
        path: &ModulePath,
    ) -> Result<TranslationUnit, ResolveError> {
        (**self).resolve_module(alloc, path)
    }

    fn display_name(
        &self,
        alloc: Global,
        path: &ModulePath,
    ) -> Result<Option<String>, ResolveError> {
        (**self).display_name(alloc, path)
    }
}

impl<T: Resolver> Resolver for &mut T {
    ghost ready = { λ r. T.ready r.now };

    ghost hands = { λ r. T.hands r.now };

    ghost refuses = { λ r. T.refuses r.now };

    ghost source = { λ r. T.source r.now };

    ghost lacks = { λ r. T.lacks r.now };

    ghost shown = { λ r. T.shown r.now };

    fn resolve_source(&mut self, alloc: Global, path: &ModulePath) -> Result<String, ResolveError> {
        (**self).resolve_source(alloc, path)
    }

    fn resolve_module(
        &mut self,
        alloc: Global,
        path: &ModulePath,
    ) -> Result<TranslationUnit, ResolveError> {
        (**self).resolve_module(alloc, path)
    }

    fn display_name(
        &self,
        alloc: Global,
        path: &ModulePath,
    ) -> Result<Option<String>, ResolveError> {
        (**self).display_name(alloc, path)
    }
}

impl Resolver for Box<dyn Resolver + Drop> {
    ghost ready = { λ b. (Resolver-box b).ready b.value };

    ghost hands = { λ b. (Resolver-box b).hands b.value };

    ghost refuses = { λ b. (Resolver-box b).refuses b.value };

    ghost source = { λ b. (Resolver-box b).source b.value };

    ghost lacks = { λ b. (Resolver-box b).lacks b.value };

    ghost shown = { λ b. (Resolver-box b).shown b.value };

    fn resolve_source(&mut self, alloc: Global, path: &ModulePath) -> Result<String, ResolveError> {
        (**self).resolve_source(alloc, path)
    }

    fn resolve_module(
        &mut self,
        alloc: Global,
        path: &ModulePath,
    ) -> Result<TranslationUnit, ResolveError> {
        (**self).resolve_module(alloc, path)
    }

    fn display_name(
        &self,
        alloc: Global,
        path: &ModulePath,
    ) -> Result<Option<String>, ResolveError> {
        (**self).display_name(alloc, path)
    }
}
