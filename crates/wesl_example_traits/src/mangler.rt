//! A mangler of one's own: another one's names with a text before each.
ghost use Rattle.std.specs.Prelude.{◌++◌, None, false, string_bytes};

use std::alloc::Global;
use wesl_mangle::Mangler;
use wesl_tree::{Error, ModulePath, Names, TypeExpression};

/// Gives the names of another mangler with a text before each, as a library does whose names are to be told from
/// others. It reads no name back.
#[derive(Drop)]
pub struct Prefixed<M> {
    /// the text
    pub prefix: String,
    /// the other mangler
    pub inner: M,
}

impl<M: Mangler> Mangler for Prefixed<M> {
    ghost name_of = { λ s p i. string_bytes s.prefix ++ M.name_of s.inner p i };

    ghost recorded = { λ _ name. None };

    ghost writes = { λ _. false };

    ghost item_of = { λ _ name. None };

    ghost variant_of = { λ s names i n ts. M.variant_of s.inner names i n ts };

    fn mangle(&mut self, alloc: Global, path: &ModulePath, item: &str) -> Result<String, Error> {
        let name = self.inner.mangle(alloc, path, item)?;
        let mut whole = String::from_str(alloc, self.prefix.as_str())?;
        whole.push_str(name.as_str())?;
        Ok(whole)
    }

    fn unmangle(&self, _: Global, _: &str) -> Result<Option<(ModulePath, String)>, Error> {
        Ok(None)
    }

    fn mangle_types(
        &self,
        alloc: Global,
        names: &Names,
        item: &str,
        variant: u32,
        types: &[TypeExpression],
    ) -> Result<String, Error> {
        self.inner.mangle_types(alloc, names, item, variant, types)
    }
}
