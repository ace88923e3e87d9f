//! Keys in the order in which they came, each once.
ghost use Rattle.std.specs.Prelude.{◌≡◌, ◌↔◌, [], IsTrue, OnOk, Contains};
ghost use Rattle.wesl_link_symbols.specs.Keyed.{PutsKey};

use std::alloc::{AllocError, Global};
use std::collections::HashSet;
use std::marker::Model;
use wesl_link_symbols::keyed::{self, Identity};

/// Keys in the order in which they came, each once.
pub struct Keys<K: Identity> {
    list: Vec<K>,
    held: HashSet<K>,
}

// By hand, so that it is proved once: a derived one is proved in each crate that lets go of a value.
impl<K: Identity> Drop for Keys<K> {
    fn drop(self) {
        let Keys { list: _, held: _ } = self;
    }
}

impl<K: Identity> Model for Keys<K> {
    ghost use Rattle.std.specs.Prelude.{List};
    ghost use Rattle.wesl_link_symbols.specs.Keyed.{HaveTheSame};

    ghost Value = { List K };

    ghost view = { λ s. s.list.items };

    ghost invariant = { λ s. HaveTheSame s.list.items s.held.keys };
}

impl<K: Identity> Keys<K> {
    /// No keys. They take no memory.
    pub fn new(alloc: Global) -> Keys<K>
        ensures { result ≡ [] }
    {
        Keys {
            list: Vec::new(alloc),
            held: HashSet::new(alloc),
        }
    }

    /// Puts a key at the end, unless it is there. Refused for want of memory.
    pub fn put(&mut self, key: K) -> Result<(), AllocError>
        ensures { OnOk result (PutsKey self.old key self.new) }
    {
        keyed::put_key(&mut self.list, &mut self.held, key)
    }

    /// Whether a key is there.
    pub fn has(&self, key: K) -> bool
        ensures { IsTrue result ↔ Contains self.now key }
    {
        keyed::has_key(&self.held, key)
    }

    /// All of them.
    pub fn list(&self) -> &[K]
        ensures { result.now ≡ self.now }
    {
        &self.list
    }
}
