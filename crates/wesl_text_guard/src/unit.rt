//! Parentheses in whole units.
ghost use Rattle.std.specs.Prelude.{◌≡◌, OnOk, true};
ghost use Rattle.wesl_text_guard.specs.Units.{unit_with_parentheses};
ghost use Rattle.wesl_tree.specs.Translation.{unit_view};
ghost use Rattle.wesl_tree_syntax.specs.Unit.{numbers, trees_of};

use crate::guard::Guard;
use std::alloc::{AllocError, Global};
use std::mem;
use wesl_tree::TranslationUnit;

/// Puts parentheses in a unit: round operands that their operations do not take without (WGSL, "Expression Grammar Summary"), and with
/// `comparisons` also round operations with a `<` or `>` in them that are an operand, an index, a selector, or stand in a list.
///
/// Parentheses have the span of what is in them. Refused for want of memory alone: some parentheses are put then, and others not.
pub fn put_parentheses(
    alloc: Global,
    unit: &mut TranslationUnit,
    comparisons: bool,
) -> Result<(), AllocError>
    ensures put { OnOk result (trees_of (unit_view unit.new) ≡ unit_with_parentheses comparisons (trees_of (unit_view unit.old))) }
    ensures only { unit_with_parentheses true (trees_of (unit_view unit.new)) ≡ unit_with_parentheses true (trees_of (unit_view unit.old)) }
    ensures named { (unit_view unit.new).names ≡ (unit_view unit.old).names }
    ensures numbers { numbers (unit_view unit.new) ≡ numbers (unit_view unit.old) }
{
    let whole = mem::replace(unit, TranslationUnit::new(alloc));
    let (names, mut imports, mut directives, mut declarations) = whole.into_parts();
    let mut guard = Guard::new(alloc, comparisons);
    guard.imports(&mut imports);
    guard.directives(&mut directives);
    guard.globals(&mut declarations);
    *unit = TranslationUnit::from_parts(names, imports, directives, declarations).unwrap();
    guard.end()
}
