//! Names with a number.
ghost use Rattle.std.specs.Prelude.{◌≡◌, ℕ, Some, None, Ok, false, IfOk, IfErr, string_bytes};
ghost use Rattle.wesl_tree_names.specs.Path.{Text, Path, path_view};
ghost use Rattle.wesl_tree_names.specs.declared.errors.Error as error;
ghost use Rattle.wesl_mangle_forms.specs.Items.{numbered};

use std::alloc::Global;
use wesl_mangle_forms::{Mangler, number_item};
use wesl_tree_names::{Error, ModulePath, Names};
use wesl_tree_syntax::TypeExpression;

/// A number for each item of a module, which never changes.
pub trait PathHash {
    // the number of an item of a module
    ghost hash_of: { Self → Path → Text → ℕ };

    /// The number of `item` of the module at `path`.
    fn hash(&self, path: &ModulePath, item: &str) -> u64
        ensures { result ≡ hash_of self.now (path_view path.now) item.now };
}

/// Names an item by itself and its number, as `x_7`. It remembers and reads nothing.
#[derive(Drop)]
pub struct HashMangler<H> {
    hasher: H,
}

impl<H> HashMangler<H> {
    ghost use Rattle.wesl_mangle.specs.Held.{hasher_of};

    /// A mangler with these numbers.
    pub fn new(hasher: H) -> HashMangler<H>
        ensures { hasher_of result ≡ hasher }
    {
        HashMangler { hasher }
    }
}

impl<H: PathHash> Mangler for HashMangler<H> {
    ghost use Rattle.wesl_mangle.specs.Held.{hasher_of};

    ghost name_of = { λ s p i. numbered i (H.hash_of (hasher_of s) p i) };

    ghost recorded = { λ _ name. None };

    ghost writes = { λ _. false };

    ghost item_of = { λ _ name. None };

    ghost variant_of = { λ _ names item number types. Some (numbered item number) };

    /// The item and its number. Refused for want of memory alone.
    fn mangle(&mut self, alloc: Global, path: &ModulePath, item: &str) -> Result<String, Error>
        ensures named { IfOk result (λ name. string_bytes name ≡ numbered item.now (H.hash_of (hasher_of self.old) (path_view path.now) item.now)) }
        ensures refused { IfErr result (λ e. e ≡ error.Memory) }
        ensures unchanged { self.new ≡ self.old }
    {
        let hash = self.hasher.hash(path, item);
        number_item(alloc, item, hash)
    }

    /// No name is read as an item. It takes no memory.
    fn unmangle(&self, _: Global, _: &str) -> Result<Option<(ModulePath, String)>, Error>
        ensures { result ≡ Ok None }
    {
        Ok(None)
    }

    fn mangle_types(
        &self,
        alloc: Global,
        _: &Names,
        item: &str,
        variant: u32,
        _: &[TypeExpression],
    ) -> Result<String, Error> {
        number_item(alloc, item, u64::from(variant))
    }
}
