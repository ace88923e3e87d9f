//! Names that are declared again.
ghost use Rattle.std.specs.Prelude.{◌≡◌, [], IfOk};
ghost use Rattle.wesl_tree_base.specs.Borrowed.{texts};
ghost use Rattle.wesl_tree_interner.specs.Interned.{with_text};
ghost use Rattle.wesl_tree.specs.Translation.{unit_view};
ghost use Rattle.wesl_validate_faults.specs.Gathered.{AreAdded, duplicate_after, duplicates_among};
ghost use Rattle.wesl_validate_faults.specs.Listed.{duplicates};

use crate::finding::Finding;
use indexmap::IndexSet;
use std::alloc::{AllocError, Global};
use wesl_tree::TranslationUnit;
use wesl_tree_names::Names;
use wesl_validate_rules::{name_of, plain_numbers};

/// Adds a name, if it was seen before.
fn add_repeated<'a>(
    findings: &mut Vec<Finding<'a>>,
    seen: &mut IndexSet<&'a str>,
    name: &'a str,
) -> Result<(), AllocError>
    ensures seen { IfOk result (λ _. texts seen.new.keys ≡ with_text (texts seen.old.keys) name.now) }
    ensures added { IfOk result (λ _. AreAdded findings.old.items findings.new.items (duplicate_after (texts seen.old.keys) name.now)) }
{
    let (_, is_new) = seen.insert_full(name)?;
    if !is_new {
        findings.push(Finding::Duplicate(name))?;
    }
    Ok(())
}

/// Adds the names of these numbers that stand before too, each where it stands again; `seen` is empty before.
fn add_all_repeated<'a>(
    findings: &mut Vec<Finding<'a>>,
    seen: &mut IndexSet<&'a str>,
    names: &'a Names,
    numbers: &Vec<usize>,
) -> Result<(), AllocError>
    requires { seen.old.keys ≡ [] }
    ensures { IfOk result (λ _. AreAdded findings.old.items findings.new.items (duplicates_among names.now numbers.now.items)) }
{
    for number in numbers {
        add_repeated(findings, seen, name_of(names, *number))?;
    }
    Ok(())
}

/// Adds the names of imports and declarations without a condition that are declared again. Refused for want of memory alone.
pub(crate) fn add_duplicates<'a>(
    alloc: Global,
    findings: &mut Vec<Finding<'a>>,
    unit: &'a TranslationUnit,
) -> Result<(), AllocError>
    ensures { IfOk result (λ _. AreAdded findings.old.items findings.new.items (duplicates (unit_view unit.now))) }
{
    let numbers = plain_numbers(alloc, unit)?;
    let mut seen = IndexSet::new(alloc);
    add_all_repeated(findings, &mut seen, unit.names(), &numbers)
}
