//! Putting the parentheses in a unit that its text needs.
ghost use Rattle.std.specs.Prelude.{◌≡◌, IfErr, IfOk, OnOk, false, true};
ghost use Rattle.wesl_text_form.specs.Says.{IsWritable};
ghost use Rattle.wesl_text_guard.specs.Units.{unit_with_parentheses};
ghost use Rattle.wesl_text_guarded.specs.Guarded.{guarded};
ghost use Rattle.wesl_text_sink.specs.Words.{is_limit};
ghost use Rattle.wesl_tree.specs.Translation.{unit_view};
ghost use Rattle.wesl_tree_syntax.specs.Unit.{numbers, spelled, trees_of};

use std::alloc::Global;
use wesl_text::{PrintFault, print_unit};
use wesl_tree::TranslationUnit;

// Whether a fault is a limit that was met: it says nothing of what was printed.
pub(crate) fn is_limit(fault: PrintFault) -> bool
    ensures { result ≡ is_limit fault }
{
    match fault {
        PrintFault::Memory | PrintFault::TooLong => true,
        _ => false,
    }
}

// Whether a text says a unit, unless a limit is met.
fn is_writable(alloc: Global, unit: &TranslationUnit) -> Result<bool, PrintFault>
    ensures told { IfOk result (λ b. b ≡ IsWritable (spelled (unit_view unit.now))) }
    ensures limit { IfErr result (λ e. is_limit e ≡ true) }
{
    match print_unit(alloc, unit) {
        Ok(_) => Ok(true),
        Err(fault) => {
            if is_limit(fault) {
                Err(fault)
            } else {
                Ok(false)
            }
        }
    }
}

// Puts parentheses in a unit, unless memory is wanting.
fn put_parentheses(
    alloc: Global,
    unit: &mut TranslationUnit,
    comparisons: bool,
) -> Result<(), PrintFault>
    ensures put { OnOk result (spelled (unit_view unit.new) ≡ unit_with_parentheses comparisons (spelled (unit_view unit.old))) }
    ensures only { unit_with_parentheses true (trees_of (unit_view unit.new)) ≡ unit_with_parentheses true (trees_of (unit_view unit.old)) }
    ensures named { (unit_view unit.new).names ≡ (unit_view unit.old).names }
    ensures numbers { numbers (unit_view unit.new) ≡ numbers (unit_view unit.old) }
    ensures limit { IfErr result (λ e. is_limit e ≡ true) }
{
    match wesl_text_guard::put_parentheses(alloc, unit, comparisons) {
        Ok(()) => Ok(()),
        Err(_) => Err(PrintFault::Memory),
    }
}

// The same as `guard_unit`, of a unit that no text says.
pub(crate) fn guard_unwritable(alloc: Global, unit: &mut TranslationUnit) -> Result<(), PrintFault>
    requires unwritable { IsWritable (spelled (unit_view unit.old)) ≡ false }
    ensures guarded { OnOk result (spelled (unit_view unit.new) ≡ guarded (spelled (unit_view unit.old))) }
    ensures only { unit_with_parentheses true (trees_of (unit_view unit.new)) ≡ unit_with_parentheses true (trees_of (unit_view unit.old)) }
    ensures named { (unit_view unit.new).names ≡ (unit_view unit.old).names }
    ensures numbers { numbers (unit_view unit.new) ≡ numbers (unit_view unit.old) }
    ensures limit { IfErr result (λ e. is_limit e ≡ true) }
{
    put_parentheses(alloc, unit, false)?;
    if is_writable(alloc, unit)? {
        Ok(())
    } else {
        put_parentheses(alloc, unit, true)
    }
}

/// Puts the parentheses in a unit that its text needs.
///
/// A unit that a text says stays as it is. In another one, operands get parentheses that their operations do not take without (WGSL,
/// "Expression Grammar Summary"). Where the text would still be read otherwise, as `f(a < b, c > d)` (WGSL, "Template Lists"),
/// operations with a `<` or `>` in them get them too that are an operand, an index, a selector, or stand in a list.
///
/// Numbers of identifiers and the table of names stay, and parentheses have the span of what is in them. A unit may have no text for
/// other reasons: these stay.
///
/// # Errors
///
/// The limits of printing alone, [`PrintFault::TooLong`] and [`PrintFault::Memory`]. Some parentheses may be put then, and others not;
/// nothing else is changed.
pub fn guard_unit(alloc: Global, unit: &mut TranslationUnit) -> Result<(), PrintFault>
    ensures guarded { OnOk result (spelled (unit_view unit.new) ≡ guarded (spelled (unit_view unit.old))) }
    ensures only { unit_with_parentheses true (trees_of (unit_view unit.new)) ≡ unit_with_parentheses true (trees_of (unit_view unit.old)) }
    ensures named { (unit_view unit.new).names ≡ (unit_view unit.old).names }
    ensures numbers { numbers (unit_view unit.new) ≡ numbers (unit_view unit.old) }
    ensures limit { IfErr result (λ e. is_limit e ≡ true) }
{
    if is_writable(alloc, unit)? {
        Ok(())
    } else {
        guard_unwritable(alloc, unit)
    }
}
