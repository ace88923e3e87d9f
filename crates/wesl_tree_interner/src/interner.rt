//! The names of a link, each once.
ghost use Rattle.std.specs.Prelude.{◌≡◌, ◌<◌, ℕ, [], true, length, String, IfOk, IfErr, OnOk, OnErr, IfSome, IfNone, Some, None, map, slice_get, string_bytes, string_eq};
ghost use Rattle.std.specs.Global.{Global};
ghost use Rattle.indexmap.specs.IndexSet.{insert_key};
ghost use Rattle.wesl_tree_names.specs.declared.errors.Error as error;
ghost use Rattle.wesl_tree_interner.specs.Different.{AreDifferent};
ghost use Rattle.wesl_tree_interner.specs.Interning.{PutsOrKeeps};

use indexmap::IndexSet;
use std::alloc::{AllocError, Global};
use wesl_tree_base::NameId;
use wesl_tree_names::Error;

/// The index of a name, which goes last unless it is there.
fn put(names: &mut IndexSet<String>, name: String) -> Result<usize, AllocError>
    ensures stored { IfOk result (λ i. (k : String Global) × (slice_get names.new.keys i ≡ Some k) × (string_eq name k ≡ true)) }
    ensures keys { OnOk result (names.new.keys ≡ insert_key string_eq names.old.keys name) }
    ensures unchanged { OnErr result (names.new.keys ≡ names.old.keys) }
    ensures puts { PutsOrKeeps names.old.keys name names.new.keys }
{
    let (index, _) = names.insert_full(name)?;
    Ok(index)
}

/// Numbers for names: equal texts have one number, and numbers run 0, 1, 2, .. by first occurrence.
pub struct Interner {
    names: IndexSet<String>,
    pub ghost different: { AreDifferent (map string_bytes names.keys) },
}

// By hand, so that it is proved once: a derived one is proved in each crate that lets go of a value.
impl Drop for Interner {
    fn drop(self) {
        let Interner { names: _ } = self;
    }
}

impl Interner {
    ghost use Rattle.wesl_tree_interner.specs.Interned.{texts_of, with_text};

    /// No names. It takes no memory.
    pub fn new(alloc: Global) -> Interner
        ensures { texts_of result ≡ [] }
    {
        Interner {
            names: IndexSet::new(alloc),
        }
    }

    /// The number of a name, the next one where it has none yet. Refused for want of memory alone; the numbers are then
    /// as before.
    pub fn intern(&mut self, name: &str) -> Result<NameId, Error>
        ensures held { IfOk result (λ i. slice_get (texts_of self.new) i.0 ≡ Some name.now) }
        ensures texts { OnOk result (texts_of self.new ≡ with_text (texts_of self.old) name.now) }
        ensures unchanged { OnErr result (texts_of self.new ≡ texts_of self.old) }
        ensures refused { IfErr result (λ e. e ≡ error.Memory) }
    {
        Ok(self.number(name)?)
    }

    /// The same for callers that know no other refusal than want of memory.
    pub fn number(&mut self, name: &str) -> Result<NameId, AllocError>
        ensures held { IfOk result (λ i. slice_get (texts_of self.new) i.0 ≡ Some name.now) }
        ensures texts { OnOk result (texts_of self.new ≡ with_text (texts_of self.old) name.now) }
        ensures unchanged { OnErr result (texts_of self.new ≡ texts_of self.old) }
    {
        if let Some(index) = self.names.get_index_of(name) {
            return Ok(NameId(index));
        }
        let alloc = *self.names.allocator();
        let name = String::from_str(alloc, name)?;
        Ok(NameId(put(&mut self.names, name)?))
    }

    /// The number that a name has, if it has one. It takes no memory.
    pub fn find(&self, name: &str) -> Option<NameId>
        ensures found { IfSome result (λ i. slice_get (texts_of self.now) i.0 ≡ Some name.now) }
        ensures none { IfNone result ((i : ℕ) → slice_get (texts_of self.now) i ≡ Some name.now → ⊥) }
    {
        match self.names.get_index_of(name) {
            Some(index) => Some(NameId(index)),
            None => None,
        }
    }

    /// The name of a number, which is below `len`. It takes no memory.
    pub fn get(&self, id: NameId) -> &str
        requires below { id.0 < length (texts_of self.now) }
        ensures { slice_get (texts_of self.now) id.0 ≡ Some result.now }
    {
        match self.names.get_index(id.0) {
            Some(name) => name.as_str(),
            None => unreachable!(),
        }
    }

    /// The name of a number, if it has one. It takes no memory.
    pub fn name(&self, id: NameId) -> Option<&str>
        ensures found { IfSome result (λ x. slice_get (texts_of self.now) id.0 ≡ Some x.now) }
        ensures none { IfNone result (slice_get (texts_of self.now) id.0 ≡ None) }
    {
        match self.names.get_index(id.0) {
            Some(name) => Some(name.as_str()),
            None => None,
        }
    }

    /// The names by their numbers. Refused for want of memory alone.
    pub fn into_texts(self, alloc: Global) -> Result<Vec<String>, AllocError>
        ensures { IfOk result (λ v. map string_bytes v.items ≡ texts_of self) }
    {
        let Interner { names } = self;
        names.into_iter().collect(alloc)
    }

    /// How many names there are. It takes no memory.
    pub fn len(&self) -> usize
        ensures { result ≡ length (texts_of self.now) }
    {
        self.names.len()
    }
}
