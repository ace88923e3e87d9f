//! What names an item of a module in a linked unit.
ghost use Rattle.std.specs.Prelude.{◌≡◌, ℕ, List, length, map, Option, Some, None, Ok, true, Bool, false, IfOk, IfErr, OnOk, OnErr, option_map, string_bytes};
ghost use Rattle.wesl_tree_names.specs.Path.{Text, Path, path_view};
ghost use Rattle.std.specs.List.{list_all};
ghost use Rattle.wesl_tree_syntax.specs.Tree.{Tree, tree_below};
ghost use Rattle.wesl_tree_syntax.specs.View.{type_view};
ghost use Rattle.wesl_tree_names.specs.declared.errors.Error as error;
ghost use Rattle.wesl_mangle_forms.specs.Items.{item_view, numbered, IsRefusedVariant};
ghost use Rattle.wesl_mangle_forms.specs.Mangler.{written_if, ReadsOn};

use crate::numbered::{number_item, told};
use std::alloc::Global;
use wesl_tree_names::{Error, ModulePath, Names};
use wesl_tree_syntax::TypeExpression;

/// Names the items of modules (WESL, "NameMangling").
///
/// The name of an item is fixed: no call changes it. A mangler may keep a record of the names that it
/// gave and of the items that they were given for; it then writes each name that it gives. A call changes
/// nothing of what a name is read as, but that the name which it gives may from then on be read as the item.
pub trait Mangler {
    // the name of an item of a module
    ghost name_of: { Self → Path → Text → Text };

    // the item that a name was last given for, in the record of the names
    ghost recorded: { Self → Text → Option (Path × Text) };

    // whether each name that is given is written into the record
    ghost writes: { Self → Bool };

    // the item that a name is read as
    ghost item_of: { Self → Text → Option (Path × Text) };

    // the name of a variant of an item, by the names of a table, the item, the variant's number and the types; none
    // where the types have no name
    ghost variant_of: { Self → List Text → Text → ℕ → List Tree → Option Text };

    /// The name of `item` of the module at `path`.
    ///
    /// Refused for want of memory alone; the record is then as before.
    fn mangle(&mut self, alloc: Global, path: &ModulePath, item: &str) -> Result<String, Error>
        ensures named { IfOk result (λ name. string_bytes name ≡ name_of self.old (path_view path.now) item.now) }
        ensures refused { IfErr result (λ e. e ≡ error.Memory) }
        ensures same { (p : Path) (i : Text) → name_of self.new p i ≡ name_of self.old p i }
        ensures written { OnOk result ((name : Text) → recorded self.new name
            ≡ written_if (writes self.old) (name_of self.old (path_view path.now) item.now) (path_view path.now, item.now) (recorded self.old) name) }
        ensures unwritten { OnErr result ((name : Text) → recorded self.new name ≡ recorded self.old name) }
        ensures same_writing { writes self.new ≡ writes self.old }
        ensures reads { ReadsOn (name_of self.old (path_view path.now) item.now) (path_view path.now, item.now) (item_of self.old) (item_of self.new) }
        ensures same_variants { (names : List Text) (i : Text) (n : ℕ) (ts : List Tree) → variant_of self.new names i n ts ≡ variant_of self.old names i n ts };

    /// The item that `mangled` is read as, where it is read as one. Refused for want of memory alone.
    fn unmangle(&self, alloc: Global, mangled: &str) -> Result<Option<(ModulePath, String)>, Error>
        ensures read { IfOk result (λ found. option_map item_view found ≡ item_of self.now mangled.now) }
        ensures refused { IfErr result (λ e. e ≡ error.Memory) };

    /// The name of the variant of `item` that these types make. `names` is the table of the types'
    /// identifiers, and `variant` the variant's number, which most manglers write in place of the types.
    ///
    /// Refused for want of memory, and as `NotNormalType` where the mangler writes the types and these
    /// have no name.
    fn mangle_types(
        &self,
        alloc: Global,
        names: &Names,
        item: &str,
        variant: u32,
        types: &[TypeExpression],
    ) -> Result<String, Error>
        requires { list_all (tree_below (length names.now)) (map type_view types.now) ≡ true }
        ensures named { IfOk result (λ name. variant_of self.now names.now item.now variant (map type_view types.now) ≡ Some (string_bytes name)) }
        ensures refused { IfErr result (IsRefusedVariant (variant_of self.now names.now item.now variant (map type_view types.now))) };
}

impl<T: Mangler> Mangler for Box<T> {
    ghost name_of = { λ b. T.name_of b.value };

    ghost recorded = { λ b. T.recorded b.value };

    ghost writes = { λ b. T.writes b.value };

    ghost item_of = { λ b. T.item_of b.value };

    ghost variant_of = { λ b. T.variant_of b.value };

    fn mangle(&mut self, alloc: Global, path: &ModulePath, item: &str) -> Result<String, Error> {
        (**self).mangle(alloc, path, item)
    }

    fn unmangle(
        &self,
        alloc: Global,
        mangled: &str,
    ) -> Result<Option<(ModulePath, String)>, Error> {
        (**self).unmangle(alloc, mangled)
    }

    fn mangle_types(
        &self,
        alloc: Global,
        names: &Names,
        item: &str,
        variant: u32,
        types: &[TypeExpression],
    ) -> Result<String, Error> {
        (**self).mangle_types(alloc, names, item, variant, types)
    }
}

impl Mangler for Box<dyn Mangler + Drop> {
    ghost name_of = { λ b. (Mangler-box b).name_of b.value };

    ghost recorded = { λ b. (Mangler-box b).recorded b.value };

    ghost writes = { λ b. (Mangler-box b).writes b.value };

    ghost item_of = { λ b. (Mangler-box b).item_of b.value };

    ghost variant_of = { λ b. (Mangler-box b).variant_of b.value };

    fn mangle(&mut self, alloc: Global, path: &ModulePath, item: &str) -> Result<String, Error> {
        (**self).mangle(alloc, path, item)
    }

    fn unmangle(
        &self,
        alloc: Global,
        mangled: &str,
    ) -> Result<Option<(ModulePath, String)>, Error> {
        (**self).unmangle(alloc, mangled)
    }

    fn mangle_types(
        &self,
        alloc: Global,
        names: &Names,
        item: &str,
        variant: u32,
        types: &[TypeExpression],
    ) -> Result<String, Error> {
        (**self).mangle_types(alloc, names, item, variant, types)
    }
}

impl<T: Mangler> Mangler for &mut T {
    ghost name_of = { λ r. T.name_of r.now };

    ghost recorded = { λ r. T.recorded r.now };

    ghost writes = { λ r. T.writes r.now };

    ghost item_of = { λ r. T.item_of r.now };

    ghost variant_of = { λ r. T.variant_of r.now };

    fn mangle(&mut self, alloc: Global, path: &ModulePath, item: &str) -> Result<String, Error> {
        (**self).mangle(alloc, path, item)
    }

    fn unmangle(
        &self,
        alloc: Global,
        mangled: &str,
    ) -> Result<Option<(ModulePath, String)>, Error> {
        (**self).unmangle(alloc, mangled)
    }

    fn mangle_types(
        &self,
        alloc: Global,
        names: &Names,
        item: &str,
        variant: u32,
        types: &[TypeExpression],
    ) -> Result<String, Error> {
        (**self).mangle_types(alloc, names, item, variant, types)
    }
}

/// Names an item by itself, whatever its module. It remembers and reads nothing.
#[derive(Clone, Copy, Debug, Default)]
pub struct NoMangler;

impl Mangler for NoMangler {
    ghost name_of = { λ _ p i. i };

    ghost recorded = { λ _ name. None };

    ghost writes = { λ _. false };

    ghost item_of = { λ _ name. None };

    ghost variant_of = { λ _ names item number types. Some (numbered item number) };

    fn mangle(&mut self, alloc: Global, _: &ModulePath, item: &str) -> Result<String, Error> {
        told(String::from_str(alloc, item))
    }

    /// No name is read as an item. It takes no memory.
    fn unmangle(&self, _: Global, _: &str) -> Result<Option<(ModulePath, String)>, Error>
        ensures { result ≡ Ok None }
    {
        Ok(None)
    }

    fn mangle_types(
        &self,
        alloc: Global,
        _: &Names,
        item: &str,
        variant: u32,
        _: &[TypeExpression],
    ) -> Result<String, Error> {
        number_item(alloc, item, u64::from(variant))
    }
}
