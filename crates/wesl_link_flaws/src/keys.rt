//! Keys in the order in which they came, each once.
ghost use Rattle.std.specs.Prelude.{◌≡◌, ◌↔◌, [], IsTrue, OnOk, Contains};
ghost use Rattle.wesl_link_symbols.specs.Keyed.{PutsKey};
ghost use Rattle.wesl_link_flaws.specs.Keys.{AreKeys};

use std::alloc::{AllocError, Global};
use std::collections::HashSet;
use wesl_link_symbols::keyed::{self, Identity};

/// Keys in the order in which they came, and the set of them.
#[derive(Drop)]
pub struct Keys<K: Identity> {
    pub list: Vec<K>,
    pub held: HashSet<K>,
}

/// No keys. They take no memory.
pub fn none<K: Identity>(alloc: Global) -> Keys<K>
    ensures keys { AreKeys result }
    ensures none { result.list.items ≡ [] }
{
    Keys {
        list: Vec::new(alloc),
        held: HashSet::new(alloc),
    }
}

/// Puts a key at the end, unless it is there. Refused for want of memory.
pub fn put<K: Identity>(keys: &mut Keys<K>, key: K) -> Result<(), AllocError>
    requires keys { AreKeys keys.old }
    ensures keys { OnOk result (AreKeys keys.new) }
    ensures puts { OnOk result (PutsKey keys.old.list.items key keys.new.list.items) }
{
    keyed::put_key(&mut keys.list, &mut keys.held, key)?;
    Ok(())
}

/// Whether a key is there.
pub fn has<K: Identity>(keys: &Keys<K>, key: K) -> bool
    requires { AreKeys keys.now }
    ensures { IsTrue result ↔ Contains keys.now.list.items key }
{
    keyed::has_key(&keys.held, key)
}

/// The list of them.
pub fn into_list<K: Identity>(keys: Keys<K>) -> Vec<K>
    ensures { result.items ≡ keys.list.items }
{
    let Keys { list, held: _ } = keys;
    list
}
