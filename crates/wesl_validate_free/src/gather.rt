//! Names of references that mean nothing, each once.
ghost use Rattle.std.specs.Prelude.{◌≡◌, ◌<◌, length, IfOk, OnOk};
ghost use Rattle.std.specs.List.{All};
ghost use Rattle.wesl_tree_base.specs.Borrowed.{texts};
ghost use Rattle.wesl_validate_free.specs.Gathered.{with_unknown, unknown_in};

use indexmap::IndexSet;
use std::alloc::{AllocError, Global};
use wesl_scope_occurrences::{Identifiers, Occurrence};
use wesl_tree_names::Names;
use wesl_validate_rules::is_unknown;

/// Adds the name of an identifier last, if it is a reference to a number that is not marked and its name is not there yet.
fn add_unknown<'a>(
    free: &mut IndexSet<&'a str>,
    names: &'a Names,
    known: &Vec<bool>,
    occurrence: &Occurrence<'_>,
) -> Result<(), AllocError>
    requires { occurrence.now.ident.0 < length names.now }
    ensures { OnOk result (texts free.new.keys ≡ with_unknown known.now.items names.now (texts free.old.keys) occurrence.now) }
{
    if is_unknown(occurrence, known) {
        free.insert(names.name(occurrence.ident))?;
    }
    Ok(())
}

/// The names of references to numbers that are not marked, each once, in the order of their first ones.
pub fn unknown_names<'a>(
    alloc: Global,
    names: &'a Names,
    known: &Vec<bool>,
    found: &Identifiers<'_>,
) -> Result<Vec<&'a str>, AllocError>
    requires { All (λ o. o.ident.0 < length names.now) found.now.all.items }
    ensures { IfOk result (λ r. texts r.items ≡ unknown_in known.now.items names.now found.now) }
{
    let mut free = IndexSet::new(alloc);
    for occurrence in &found.all {
        add_unknown(&mut free, names, known, occurrence)?;
    }
    Vec::from_slice(alloc, free.as_slice())
}
