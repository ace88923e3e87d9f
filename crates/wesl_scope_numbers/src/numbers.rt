//! Numbers for keys.
ghost use Rattle.std.specs.Prelude.{◌≡◌, [], map, IfOk, IfErr};
ghost use Rattle.wesl_tree_names.specs.declared.errors.Error as error;
ghost use Rattle.wesl_scope_numbers.specs.Canonical.{canonical};
ghost use Rattle.wesl_scope_meanings.specs.Keys.{flat, key_name};
ghost use Rattle.wesl_scope_numbers.specs.Numbering.{distinct};

use indexmap::IndexSet;
use std::alloc::Global;
use wesl_scope_meanings::Key;
use wesl_tree_names::{Error, Names, law_of_equality};

/// Puts keys into an empty set, one after the other, and notes the number that each has there.
fn number_all<'a>(
    keys: &[Key<'a>],
    seen: &mut IndexSet<Key<'a>>,
    numbers: &mut Vec<usize>,
) -> Result<(), Error>
    requires none_seen { seen.old.keys ≡ [] }
    requires none_given { numbers.old.items ≡ [] }
    ensures numbers { IfOk result (λ _. numbers.new.items ≡ canonical (map flat keys.now)) }
    ensures keys { IfOk result (λ _. map flat seen.new.keys ≡ distinct (map flat keys.now)) }
    ensures refused { IfErr result (λ e. e ≡ error.Memory) }
{
    law_of_equality();
    for key in keys {
        let (number, _) = seen.insert_full(*key)?;
        numbers.push(number)?;
    }
    Ok(())
}

/// A table of the names of keys.
fn names(alloc: Global, keys: &[Key<'_>]) -> Result<Names, Error>
    ensures names { IfOk result (λ names. names ≡ map key_name (map flat keys.now)) }
    ensures refused { IfErr result (λ e. e ≡ error.Memory) }
{
    let mut names = Names::new(alloc);
    for key in keys {
        names.add(key.name())?;
    }
    Ok(names)
}

/// Puts keys into an empty set, notes the number that each has there, and answers a table of the names of the keys by
/// their numbers.
fn number_and_name<'a>(
    alloc: Global,
    keys: &[Key<'a>],
    seen: &mut IndexSet<Key<'a>>,
    numbers: &mut Vec<usize>,
) -> Result<Names, Error>
    requires none_seen { seen.old.keys ≡ [] }
    requires none_given { numbers.old.items ≡ [] }
    ensures numbers { IfOk result (λ _. numbers.new.items ≡ canonical (map flat keys.now)) }
    ensures table { IfOk result (λ names. names ≡ map key_name (distinct (map flat keys.now))) }
    ensures refused { IfErr result (λ e. e ≡ error.Memory) }
{
    number_all(keys, seen, numbers)?;
    names(alloc, seen.as_slice())
}

/// Notes the number of each key, and answers a table of the names of the keys by their numbers.
fn number_table<'a>(
    alloc: Global,
    keys: &[Key<'a>],
    numbers: &mut Vec<usize>,
) -> Result<Names, Error>
    requires none_given { numbers.old.items ≡ [] }
    ensures numbers { IfOk result (λ _. numbers.new.items ≡ canonical (map flat keys.now)) }
    ensures table { IfOk result (λ names. names ≡ map key_name (distinct (map flat keys.now))) }
    ensures refused { IfErr result (λ e. e ≡ error.Memory) }
{
    let mut seen = IndexSet::new(alloc);
    number_and_name(alloc, keys, &mut seen, numbers)
}

/// The number of each key, equal ones having one, 0, 1, 2, .. by first occurrence; and a table of the names of the keys
/// by their numbers.
pub fn numbers_and_names(alloc: Global, keys: &[Key<'_>]) -> Result<(Vec<usize>, Names), Error>
    ensures given { IfOk result (λ r. r.0.items ≡ canonical (map flat keys.now)) }
    ensures table { IfOk result (λ r. r.1 ≡ map key_name (distinct (map flat keys.now))) }
    ensures refused { IfErr result (λ e. e ≡ error.Memory) }
{
    let mut numbers = Vec::with_capacity(alloc, keys.len())?;
    match number_table(alloc, keys, &mut numbers) {
        Ok(table) => Ok((numbers, table)),
        Err(fault) => Err(fault),
    }
}
