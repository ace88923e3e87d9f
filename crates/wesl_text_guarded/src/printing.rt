//! Printing units with the parentheses that their text needs.
ghost use Rattle.std.specs.Prelude.{◌≡◌, IfErr, IfOk, false, string_bytes, true};
ghost use Rattle.wesl_text_form.specs.Says.{IsWritable, TextSays, spelling};
ghost use Rattle.wesl_text_guarded.specs.Guarded.{guarded};
ghost use Rattle.wesl_text_sink.specs.Words.{is_limit};
ghost use Rattle.wesl_text_tokens.specs.Tokens.{tokens};
ghost use Rattle.wesl_tree.specs.Translation.{unit_view};
ghost use Rattle.wesl_tree_syntax.specs.Unit.{spelled};

use crate::guarding::{guard_unwritable, is_limit};
use std::alloc::Global;
use wesl_text::{PrintFault, print_unit};
use wesl_tree::TranslationUnit;

/// The text of a unit, with the parentheses that it needs where the unit has none.
///
/// The text of a unit that has them is that of [`print_unit`](wesl_text::print_unit). Parentheses are put as
/// [`guard_unit`](crate::guard_unit) says, in a copy.
///
/// ```text
/// let text = print_guarded(alloc, &unit)?;
/// ```
///
/// # Errors
///
/// Where no text says the unit even so, why not; and the limits, [`PrintFault::TooLong`] and [`PrintFault::Memory`].
pub fn print_guarded(alloc: Global, unit: &TranslationUnit) -> Result<String, PrintFault>
    ensures said { IfOk result (λ t. TextSays (string_bytes t) (guarded (spelled (unit_view unit.now)))) }
    ensures tokens { IfOk result (λ t. tokens (string_bytes t) ≡ spelling (guarded (spelled (unit_view unit.now)))) }
    ensures unwritable { IfErr result (λ e. is_limit e ≡ false → IsWritable (guarded (spelled (unit_view unit.now))) ≡ false) }
{
    match print_unit(alloc, unit) {
        Ok(text) => Ok(text),
        Err(fault) => {
            if is_limit(fault) {
                Err(fault)
            } else {
                print_unwritable(alloc, unit)
            }
        }
    }
}

// The same of a unit that no text says.
fn print_unwritable(alloc: Global, unit: &TranslationUnit) -> Result<String, PrintFault>
    requires unwritable { IsWritable (spelled (unit_view unit.now)) ≡ false }
    ensures said { IfOk result (λ t. TextSays (string_bytes t) (guarded (spelled (unit_view unit.now)))) }
    ensures tokens { IfOk result (λ t. tokens (string_bytes t) ≡ spelling (guarded (spelled (unit_view unit.now)))) }
    ensures unwritable { IfErr result (λ e. is_limit e ≡ false → IsWritable (guarded (spelled (unit_view unit.now))) ≡ false) }
{
    let mut copy = copy_of(alloc, unit)?;
    guard_unwritable(alloc, &mut copy)?;
    print_unit(alloc, &copy)
}

// A copy of a unit.
fn copy_of(alloc: Global, unit: &TranslationUnit) -> Result<TranslationUnit, PrintFault>
    ensures equal { IfOk result (λ copy. unit_view copy ≡ unit_view unit.now) }
    ensures limit { IfErr result (λ e. is_limit e ≡ true) }
{
    match unit.try_clone(alloc) {
        Ok(copy) => Ok(copy),
        Err(error) => {
            drop(error);
            Err(PrintFault::Memory)
        }
    }
}
