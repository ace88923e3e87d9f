//! Units and the values of their JSON form.
ghost use Rattle.std.specs.Prelude.{◌≡◌, false, IfErr, IfOk};
ghost use Rattle.serde_json.specs.View.{view};
ghost use Rattle.serde_json.specs.Written.{has_float};
ghost use Rattle.wesl_json_form.specs.View.{borrowed_view};
ghost use Rattle.wesl_tree_names.specs.declared.errors.Error as error;
ghost use Rattle.wesl_tree_syntax.specs.Shown.{placed};
ghost use Rattle.wesl_tree.specs.Translation.{unit_view};
ghost use Rattle.wesl_json_form.specs.Units.{IsBrokenUnit, IsNoUnit, IsUnitOf, unit_value, unit_value_2};
ghost use Rattle.wesl_json_light.specs.Readable.{IsReadable};
ghost use Rattle.wesl_json_read.specs.Faults.{IfPlace};
ghost use Rattle.wesl_json.specs.ReadAgain.{OfWritten};

use bumpalo::Bump;
use serde_json::Value;
use std::alloc::Global;
use wesl_json_form::BorrowedValue;
use wesl_json_light::{borrowed_of_value, law_of_units, law_of_whole_values};
use wesl_tree::{Error, TranslationUnit};

/// The unit that a value stands for: of form 2, which has places in the source, where it has the key `form`, else of
/// form 1.
///
/// Each distinct name gets one number, by first occurrence in document order. In form 2 a node has the span that stands
/// at `span`; one without that key has the empty span at 0, as each node has in form 1. A value that stands for no unit
/// is refused with `BadTree`, which holds the JSON Pointer of a value that is wrong: of an object with an unknown key or
/// without a key that it needs, of an unknown word, of an empty name, of a number, of a span that falls or is none, of a
/// `form` other than 2, or of a value of another kind than its place asks for. Otherwise it is refused for want of memory
/// alone.
///
/// What a unit was written as is read with the unit's spelling, and what it was written as in form 2 with its spans too,
/// if each path in it has a text that says no other path. It is read just where the names of the unit are nonempty, its
/// literal texts are as the format says, its path texts say paths and no span that was written falls.
pub fn unit_of_value(alloc: Global, value: &Value) -> Result<TranslationUnit, Error>
    ensures unit { IfOk result (λ u. IsUnitOf (view value.now) (unit_view u)) }
    ensures place { IfErr result (λ e. IfPlace e (IsBrokenUnit (view value.now))) }
    ensures unread { IfErr result (λ e. IfPlace e (λ _. IsNoUnit (view value.now))) }

    // of the value that a unit was written as, in either form
    ensures reads_back { IfOk result (λ r. OfWritten (view value.now) (λ u. placed (unit_view r) ≡ u)) }
    ensures only_readable { IfOk result (λ _. OfWritten (view value.now) IsReadable) }
    ensures is_read { IfErr result (λ e. OfWritten (view value.now) (λ u. IsReadable u → e ≡ error.Memory)) }
{
    let arena = Bump::new(alloc);
    let light = borrowed_of_value(alloc, value, &arena)?;
    unit_of_borrowed(alloc, &light)
}

/// The unit that a value stands for, read from the value's light form: as `unit_of_value` reads it.
pub fn unit_of_borrowed(alloc: Global, value: &BorrowedValue<'_>) -> Result<TranslationUnit, Error>
    ensures unit { IfOk result (λ u. IsUnitOf (borrowed_view value.now) (unit_view u)) }
    ensures place { IfErr result (λ e. IfPlace e (IsBrokenUnit (borrowed_view value.now))) }
    ensures unread { IfErr result (λ e. IfPlace e (λ _. IsNoUnit (borrowed_view value.now))) }

    // of the value that a unit was written as, in either form
    ensures reads_back { IfOk result (λ r. OfWritten (borrowed_view value.now) (λ u. placed (unit_view r) ≡ u)) }
    ensures only_readable { IfOk result (λ _. OfWritten (borrowed_view value.now) IsReadable) }
    ensures is_read { IfErr result (λ e. OfWritten (borrowed_view value.now) (λ u. IsReadable u → e ≡ error.Memory)) }
{
    law_of_units();
    wesl_json_read_unit::unit_of_value(alloc, value)
}

/// The value that a unit is written as in form 1: its form with the names for the identifiers, without its spans.
///
/// Short forms are used wherever they exist, and empty lists and absent options are left out, except the arguments of a
/// type or of a custom attribute, which are written wherever they are there. It has no number that is not whole. Refused
/// for want of memory alone.
pub fn value_of_unit(alloc: Global, unit: &TranslationUnit) -> Result<Value, Error>
    ensures written { IfOk result (λ v. view v ≡ unit_value (unit_view unit.now)) }
    ensures whole { IfOk result (λ v. has_float (view v) ≡ false) }
    ensures refused { IfErr result (λ e. e ≡ error.Memory) }
{
    law_of_whole_values();
    wesl_json_write::value_of_unit(alloc, false, unit)
}

/// The value that a unit is written as in form 2: as `value_of_unit` writes it, with the key `form` and with the span of
/// each node that has one other than `0..0`.
///
/// A type, a truth value and an attribute without operand are objects where they have a span. A span that falls is
/// written as it is, and what has one is not read again. It has no number that is not whole. Refused for want of memory
/// alone.
///
/// # Example
///
/// ```
/// let value = value_of_unit_2(alloc, &unit)?;
/// let again = unit_of_value(alloc, &value)?;
/// println!(rt; "{}", again.same_spelling(&unit) && again.same_spans(&unit))?;
/// ```
pub fn value_of_unit_2(alloc: Global, unit: &TranslationUnit) -> Result<Value, Error>
    ensures written { IfOk result (λ v. view v ≡ unit_value_2 (unit_view unit.now)) }
    ensures whole { IfOk result (λ v. has_float (view v) ≡ false) }
    ensures refused { IfErr result (λ e. e ≡ error.Memory) }
{
    law_of_whole_values();
    wesl_json_write::value_of_unit(alloc, true, unit)
}
