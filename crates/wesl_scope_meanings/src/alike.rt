//! Numbers for how names are spelled.
ghost use Rattle.std.specs.Prelude.{◌≡◌, ◌<◌, [], IfOk, OnOk, length, map};
ghost use Rattle.wesl_scope_meanings.specs.Spellings.{HasSpellings, AreSpellings};

use indexmap::IndexSet;
use std::alloc::{AllocError, Global};
use wesl_tree_names::{Ident, Names};

/// Puts names into an empty set, one after the other, and notes the number that each has there.
fn number_names<'a>(
    names: &'a Names,
    texts: &mut IndexSet<&'a str>,
    alike: &mut Vec<usize>,
) -> Result<(), AllocError>
    requires none_seen { texts.old.keys ≡ [] }
    requires none_given { alike.old.items ≡ [] }
    ensures { OnOk result (AreSpellings names.now (map (λ k. k.now) texts.new.keys) alike.new.items) }
{
    for i in 0..names.len() {
        let (number, _) = texts.insert_full(names.name(Ident(i)))?;
        alike.push(number)?;
    }
    Ok(())
}

/// How many texts there are, and of each name the number of its text.
fn spelled_in<'a>(
    names: &'a Names,
    texts: &mut IndexSet<&'a str>,
    alike: &mut Vec<usize>,
) -> Result<usize, AllocError>
    requires none_seen { texts.old.keys ≡ [] }
    requires none_given { alike.old.items ≡ [] }
    ensures { IfOk result (λ count. HasSpellings names.now alike.new.items count) }
{
    number_names(names, texts, alike)?;
    Ok(texts.len())
}

/// Notes of each name of a table the number of its spelling, and answers how many there are.
fn number_spellings(
    alloc: Global,
    names: &Names,
    alike: &mut Vec<usize>,
) -> Result<usize, AllocError>
    requires { alike.old.items ≡ [] }
    ensures { IfOk result (λ count. HasSpellings names.now alike.new.items count) }
{
    let mut texts = IndexSet::with_capacity(alloc, names.len())?;
    spelled_in(names, &mut texts, alike)
}

/// Of each name of a table the number of its spelling, and how many spellings there are. Refused for want of memory alone.
pub fn spellings(alloc: Global, names: &Names) -> Result<(Vec<usize>, usize), AllocError>
    ensures { IfOk result (λ r. HasSpellings names.now r.0.items r.1) }
{
    let mut alike = Vec::with_capacity(alloc, names.len())?;
    let count = number_spellings(alloc, names, &mut alike)?;
    Ok((alike, count))
}
