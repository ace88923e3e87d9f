//! A record of the names that a mangler gave.
ghost use Rattle.std.specs.Prelude.{◌≡◌, None, Some, true, IfOk, IfErr, OnOk, OnErr, string_bytes};
ghost use Rattle.wesl_tree_names.specs.Path.{Text, Path, path_view};
ghost use Rattle.wesl_tree_names.specs.declared.errors.Error as error;
ghost use Rattle.wesl_mangle_forms.specs.Items.{item_view, numbered};
ghost use Rattle.wesl_mangle_forms.specs.Mangler.{written_if, ReadsOn};
ghost use Rattle.wesl_mangle.specs.Kept.{IsWritten, IsWrittenOrKept};
ghost use Rattle.wesl_mangle.specs.Shown.{shown};

use std::alloc::Global;
use std::collections::BTreeMap;
use wesl_mangle_forms::{Mangler, is_made, number_item};
use wesl_tree_names::{Error, ModulePath, Names};
use wesl_tree_syntax::TypeExpression;

/// A name, and the item that it is given for.
type Entry = (String, (ModulePath, String));

/// A copy of the item.
fn copied(alloc: Global, path: &ModulePath, item: &str) -> Result<(ModulePath, String), Error>
    ensures copied { IfOk result (λ copy. item_view copy ≡ (path_view path.now, item.now)) }
    ensures refused { IfErr result (λ e. e ≡ error.Memory) }
{
    match path.try_clone(alloc) {
        Ok(path) => match String::from_str(alloc, item) {
            Ok(item) => Ok((path, item)),
            Err(_) => Err(Error::Memory),
        },
        Err(error) => Err(error),
    }
}

/// A copy of the name, with a copy of the item.
fn entry(alloc: Global, name: &str, path: &ModulePath, item: &str) -> Result<Entry, Error>
    ensures copied { IfOk result (λ entry. (string_bytes entry.0 ≡ name.now) × (item_view entry.1 ≡ (path_view path.now, item.now))) }
    ensures refused { IfErr result (λ e. e ≡ error.Memory) }
{
    match String::from_str(alloc, name) {
        Ok(name) => match copied(alloc, path, item) {
            Ok(item) => Ok((name, item)),
            Err(error) => Err(error),
        },
        Err(_) => Err(Error::Memory),
    }
}

/// Writes the entry into the record.
fn record(
    items: &mut BTreeMap<String, (ModulePath, String)>,
    entry: Result<Entry, Error>,
) -> Result<(), Error>
    ensures written { (name : Text) (item : Path × Text) → IfOk entry (λ e. (string_bytes e.0 ≡ name) × (item_view e.1 ≡ item))
        → OnOk result ((n : Text) → shown items.new n ≡ written_if true name item (shown items.old) n) }
    ensures unwritten { OnErr result ((n : Text) → shown items.new n ≡ shown items.old n) }
    ensures refused { IfErr entry (λ e. e ≡ error.Memory) → IfErr result (λ e. e ≡ error.Memory) }
{
    match entry {
        Ok((name, written)) => {
            if is_made(items.insert(name, written)) {
                Ok(())
            } else {
                Err(Error::Memory)
            }
        }
        Err(error) => Err(error),
    }
}

/// Gives the names of another mangler, and remembers the item that each name was last given for.
pub struct CacheMangler<M> {
    mangler: M,
    items: BTreeMap<String, (ModulePath, String)>,
}

// By hand, so that it is proved once: a derived one is proved in each crate that lets go of a value.
impl<M: Drop> Drop for CacheMangler<M> {
    fn drop(self) {
        let CacheMangler {
            mangler: _,
            items: _,
        } = self;
    }
}

impl<M> CacheMangler<M> {
    ghost use Rattle.wesl_mangle.specs.Held.{inner, record_of};

    /// A mangler that gives the names of `mangler`, with nothing recorded. It takes no memory.
    pub fn new(alloc: Global, mangler: M) -> CacheMangler<M>
        ensures mangler { inner result ≡ mangler }
        ensures empty { (name : Text) → record_of result name ≡ None }
    {
        CacheMangler {
            mangler,
            items: BTreeMap::new(alloc),
        }
    }
}

impl<M: Mangler> Mangler for CacheMangler<M> {
    ghost use Rattle.wesl_mangle.specs.Held.{inner, item_in, record_of};

    ghost name_of = { λ s. M.name_of (inner s) };

    ghost recorded = { λ s. record_of s };

    ghost writes = { λ _. true };

    ghost item_of = { item_in M.item_of };

    ghost variant_of = { λ _ names item number types. Some (numbered item number) };

    /// The name that the other mangler gives, with the item recorded for it.
    ///
    /// Refused for want of memory alone; the record is then as before, and the other mangler's may have the item.
    fn mangle(&mut self, alloc: Global, path: &ModulePath, item: &str) -> Result<String, Error>
        ensures named { IfOk result (λ name. string_bytes name ≡ M.name_of (inner self.old) (path_view path.now) item.now) }
        ensures refused { IfErr result (λ e. e ≡ error.Memory) }
        ensures same { (p : Path) (i : Text) → M.name_of (inner self.new) p i ≡ M.name_of (inner self.old) p i }
        ensures written { OnOk result (IsWritten true (M.name_of (inner self.old) (path_view path.now) item.now) (path_view path.now, item.now)
            (record_of self.old) (record_of self.new)) }
        ensures unwritten { OnErr result ((name : Text) → record_of self.new name ≡ record_of self.old name) }
        ensures reads { ReadsOn (M.name_of (inner self.old) (path_view path.now) item.now) (path_view path.now, item.now)
            (item_in M.item_of self.old) (item_in M.item_of self.new) }
        ensures inner_reads { ReadsOn (M.name_of (inner self.old) (path_view path.now) item.now) (path_view path.now, item.now)
            (M.item_of (inner self.old)) (M.item_of (inner self.new)) }
        ensures inner_written { OnOk result (IsWritten (M.writes (inner self.old)) (M.name_of (inner self.old) (path_view path.now) item.now) (path_view path.now, item.now)
            (M.recorded (inner self.old)) (M.recorded (inner self.new))) }
        ensures inner_refused { OnErr result (IsWrittenOrKept (M.writes (inner self.old)) (M.name_of (inner self.old) (path_view path.now) item.now) (path_view path.now, item.now)
            (M.recorded (inner self.old)) (M.recorded (inner self.new))) }
    {
        let mangled = self.mangler.mangle(alloc, path, item)?;
        record(&mut self.items, entry(alloc, mangled.as_str(), path, item))?;
        Ok(mangled)
    }

    fn unmangle(
        &self,
        alloc: Global,
        mangled: &str,
    ) -> Result<Option<(ModulePath, String)>, Error> {
        match self.items.get(mangled) {
            Some((path, item)) => Ok(Some(copied(alloc, path, item.as_str())?)),
            None => self.mangler.unmangle(alloc, mangled),
        }
    }

    fn mangle_types(
        &self,
        alloc: Global,
        _: &Names,
        item: &str,
        variant: u32,
        _: &[TypeExpression],
    ) -> Result<String, Error> {
        number_item(alloc, item, u64::from(variant))
    }
}
