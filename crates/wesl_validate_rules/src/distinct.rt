//! Names that stand twice.
ghost use Rattle.std.specs.Prelude.{◌≡◌, [], map, IfOk, IfSome, IfNone};
ghost use Rattle.wesl_tree_syntax.specs.Unit.{name_in};
ghost use Rattle.wesl_tree.specs.Translation.{unit_view};
ghost use Rattle.wesl_validate_rules.specs.Valid.{spelling, AreDistinct};
ghost use Rattle.wesl_validate_rules.specs.Faults.{IsDuplicate};
ghost use Rattle.wesl_validate_rules.specs.Twice.{AreApart, StandsTwice};

use crate::plain::plain_numbers;
use indexmap::IndexSet;
use std::alloc::{AllocError, Global};
use wesl_tree::TranslationUnit;
use wesl_tree_names::{Ident, Names};

/// The name of a number, and the empty text where the table has none.
pub fn name_of(names: &Names, number: usize) -> &str
    ensures { result.now ≡ name_in names.now number }
{
    if number < names.len() {
        names.name(Ident(number))
    } else {
        ""
    }
}

/// A number whose name one of the numbers before it has too, if there is one; `seen` is empty before.
fn repeated_among<'a>(
    seen: &mut IndexSet<&'a str>,
    names: &'a Names,
    numbers: &Vec<usize>,
) -> Result<Option<usize>, AllocError>
    requires { seen.old.keys ≡ [] }
    ensures repeated { IfOk result (λ r. IfSome r (λ m. StandsTwice (map (name_in names.now) numbers.now.items) (name_in names.now m))) }
    ensures none { IfOk result (λ r. IfNone r (AreApart (map (name_in names.now) numbers.now.items))) }
{
    for number in numbers {
        let (_, is_new) = seen.insert_full(name_of(names, *number))?;
        if !is_new {
            return Ok(Some(*number));
        }
    }
    Ok(None)
}

/// A number whose name one of the numbers before it has too, if there is one.
fn repeated(alloc: Global, names: &Names, numbers: &Vec<usize>) -> Result<Option<usize>, AllocError>
    ensures repeated { IfOk result (λ r. IfSome r (λ m. StandsTwice (map (name_in names.now) numbers.now.items) (name_in names.now m))) }
    ensures none { IfOk result (λ r. IfNone r (AreApart (map (name_in names.now) numbers.now.items))) }
{
    let mut seen = IndexSet::new(alloc);
    repeated_among(&mut seen, names, numbers)
}

/// The number of a name that two imports or declarations without a condition have, if there is one. Refused for want
/// of memory alone.
pub fn duplicate(alloc: Global, unit: &TranslationUnit) -> Result<Option<usize>, AllocError>
    ensures duplicate { IfOk result (λ r. IfSome r (λ m. IsDuplicate (unit_view unit.now) (spelling (unit_view unit.now) m))) }
    ensures none { IfOk result (λ r. IfNone r (AreDistinct (unit_view unit.now))) }
{
    let numbers = plain_numbers(alloc, unit)?;
    repeated(alloc, unit.names(), &numbers)
}
