//! The flags of a unit.
ghost use Rattle.std.specs.Prelude.{◌≡◌, IfOk, map};
ghost use Rattle.wesl_tree_base.specs.Borrowed.{texts};
ghost use Rattle.wesl_tree_syntax.specs.Unit.{name_in, spelled};
ghost use Rattle.wesl_tree.specs.Translation.{unit_view};
ghost use Rattle.wesl_cond_alive.specs.Choices.{flags, once, with_text};

use crate::walk::Walk;
use indexmap::IndexSet;
use std::alloc::{AllocError, Global};
use wesl_cond_chains::name_of;
use wesl_tree::TranslationUnit;
use wesl_tree_names::{Ident, Names};

/// Puts a text behind others, unless it is one of them.
fn put_once<'a>(found: &mut IndexSet<&'a str>, name: &'a str) -> Result<(), AllocError>
    ensures { IfOk result (λ _. texts found.new.keys ≡ with_text name.now (texts found.old.keys)) }
{
    match found.insert(name) {
        Ok(_) => Ok(()),
        Err(_) => Err(AllocError),
    }
}

/// The different names of identifiers, in order.
fn distinct<'a>(
    alloc: Global,
    names: &'a Names,
    idents: &[Ident],
) -> Result<Vec<&'a str>, AllocError>
    ensures { IfOk result (λ fs. texts fs.items ≡ once (map (name_in names.now) (map (λ i. i.0) idents.now))) }
{
    let mut found = IndexSet::new(alloc);
    let mut is_refused = false;
    for ident in idents {
        is_refused |= put_once(&mut found, name_of(names, *ident)).is_err();
    }
    if is_refused {
        return Err(AllocError);
    }
    Vec::from_slice(alloc, found.as_slice())
}

/// The different flags of a unit's conditions, in document order (WESL, "ConditionalTranslation"). Of a qualified name the
/// flag is its last part.
///
/// # Errors
/// Want of memory.
pub fn flags_of_unit<'a>(
    alloc: Global,
    unit: &'a TranslationUnit,
) -> Result<Vec<&'a str>, AllocError>
    ensures { IfOk result (λ fs. texts fs.items ≡ flags (spelled (unit_view unit.now))) }
{
    let mut walk = Walk::new(alloc);
    let _ = walk.unit(unit);
    if walk.is_refused {
        return Err(AllocError);
    }
    distinct(alloc, unit.names(), &walk.flags)
}
