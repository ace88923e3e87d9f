//! Maps by key, seen as the list of their entries, and keys in the order in which they came.
//!
//! They are types of std: a library carries all that is stated of the types that its public interface reaches, private
//! fields' types too, but for those of std.
ghost use Rattle.std.specs.Prelude.{◌≡◌, ◌↔◌, true, IsTrue, IfSome, IfNone, OnOk, OnErr, Contains};
ghost use Rattle.wesl_link_symbols.specs.Keyed.{Puts, PutsKey, HaveTheSame};

use std::alloc::AllocError;
use std::collections::{HashMap, HashSet};
use std::hash::Hash;

/// A key whose equality tells its values apart.
pub trait Identity: Copy + Eq + Hash + Drop {
    ghost same: { (x y : Self) → Self.eq x y ≡ true → x ≡ y };
}

/// The value at a key.
pub fn value_at<K: Identity, V: Copy>(map: &HashMap<K, V>, key: K) -> Option<V>
    ensures found { IfSome result (λ v. Contains map.now.entries (key, v)) }
    ensures none { IfNone result ((v : V) → Contains map.now.entries (key, v) → ⊥) }
{
    match map.get(&key) {
        Some(value) => Some(*value),
        None => None,
    }
}

/// Puts a value at a key, in place of the one that is there. Where memory is wanting the map stays as it was.
pub fn put<K: Identity, V: Drop>(
    map: &mut HashMap<K, V>,
    key: K,
    value: V,
) -> Result<(), AllocError>
    ensures puts { OnOk result (Puts map.old.entries key value map.new.entries) }
    ensures stays { OnErr result (map.new.entries ≡ map.old.entries) }
{
    match map.insert(key, value) {
        Ok(_) => Ok(()),
        Err(_) => Err(AllocError),
    }
}

/// Puts a key at the end of a list, unless it is there; the set has the keys of the list. Where memory is wanting both stay as
/// they were.
pub fn put_key<K: Identity>(
    keys: &mut Vec<K>,
    held: &mut HashSet<K>,
    key: K,
) -> Result<(), AllocError>
    requires same { HaveTheSame keys.old.items held.old.keys }
    ensures puts { OnOk result (PutsKey keys.old.items key keys.new.items) }
    ensures stays { HaveTheSame keys.new.items held.new.keys }
    ensures keys_stay { OnErr result (keys.new.items ≡ keys.old.items) }
    ensures held_stays { OnErr result (held.new.keys ≡ held.old.keys) }
{
    if held.contains(&key) {
        return Ok(());
    }
    keys.push(key)?;
    match held.insert(key) {
        Ok(_) => Ok(()),
        Err(_) => {
            keys.pop();
            Err(AllocError)
        }
    }
}

/// Whether a set has a key, and so the list whose keys it has.
pub fn has_key<K: Identity>(held: &HashSet<K>, key: K) -> bool
    ensures { IsTrue result ↔ Contains held.now.keys key }
{
    held.contains(&key)
}
