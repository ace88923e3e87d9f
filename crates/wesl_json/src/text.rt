//! Units as JSON texts.
ghost use Rattle.std.specs.Prelude.{◌≡◌, ◌⊎◌, IfErr, IfOk, string_bytes};
ghost use Rattle.serde_json.specs.Written.{compact_text};
ghost use Rattle.wesl_tree_names.specs.declared.errors.Diagnostic.{out-Diagnostic};
ghost use Rattle.wesl_tree_names.specs.declared.errors.Error as error;
ghost use Rattle.wesl_tree_names.specs.Errors.{IsBare};
ghost use Rattle.wesl_tree_syntax.specs.Shown.{placed};
ghost use Rattle.wesl_tree_syntax.specs.Unit.{spelled};
ghost use Rattle.wesl_tree.specs.Translation.{unit_view};
ghost use Rattle.wesl_json_light.specs.Readable.{IsReadable};
ghost use Rattle.wesl_json.specs.ReadAgain.{OfWritten};
ghost use Rattle.wesl_json.specs.Texts.{IsReadBack};
ghost use Rattle.wesl_json.specs.UnitTexts.{IsUnitOfText, IsUnreadable, OfText, PrintsAs, ReadsAs, chosen_value};

use crate::places::shows_span;
use crate::unit::unit_of_borrowed;
use crate::value_text::{borrowed_of_text, text_of_value};
use bumpalo::Bump;
use json::Scratch;
use std::alloc::Global;
use wesl_json_light::{law_of_units, law_of_whole_values};
use wesl_resolve_base::UnitText;
use wesl_tree::{Diagnostic, Error, TranslationUnit};

/// Units as JSON texts with no space, read as `unit_of_text` reads them, in either form, and printed as `text_of_unit`
/// prints them: in form 2 where they have places, else in form 1.
#[derive(Clone, Copy, Debug, Default)]
pub struct JsonText;

impl UnitText for JsonText {
    ghost use Rattle.wesl_json.specs.UnitTexts.{IsUnitOfText, IsUnreadable, OfText, PrintsAs, ReadsAs};

    ghost reads = { λ _ text u. ReadsAs text u };

    ghost unreadable = { λ _ text e. IsUnreadable text e };

    ghost prints = { λ _ u text. PrintsAs u text };

    fn read(&self, alloc: Global, text: &str) -> Result<TranslationUnit, Diagnostic>
        ensures read { IfOk result (λ u. ReadsAs text.now (spelled (unit_view u))) }
        ensures refused { IfErr result (λ d. ((out-Diagnostic d).error ≡ error.Memory) ⊎ IsUnreadable text.now (out-Diagnostic d).error) }
        ensures unit { IfOk result (λ u. IsUnitOfText text.now (unit_view u)) }
        ensures reads_back { IfOk result (λ r. OfText text.now (λ d. OfWritten d (λ u. placed (unit_view r) ≡ u))) }
        ensures only_readable { IfOk result (λ _. OfText text.now (λ d. OfWritten d IsReadable)) }
        ensures is_read { IfErr result (λ e. OfText text.now (λ d. OfWritten d (λ u. IsReadable u → IsBare error.Memory e))) }
    {
        Ok(unit_of_text(alloc, text)?)
    }

    fn print(&self, alloc: Global, unit: &TranslationUnit) -> Result<String, Diagnostic> {
        Ok(text_of_unit(alloc, unit)?)
    }

    ghost reads_back = { λ _ u v text paths printed read. printed.read_back paths v read };
}

/// The unit that the value of a text stands for, read as `unit_of_value` reads the value: of form 2 where it has the key
/// `form`, else of form 1; each distinct name with one number, by first occurrence in document order.
///
/// A text that is no JSON, or that nests deeper than 127, is refused with `NotJson`, and one whose value stands for no unit
/// with `BadTree`, which holds the JSON Pointer of a value that is wrong. Otherwise it is refused for want of memory alone.
pub fn unit_of_text(alloc: Global, text: &str) -> Result<TranslationUnit, Error>
    ensures unit { IfOk result (λ u. IsUnitOfText text.now (unit_view u)) }
    ensures read { IfOk result (λ u. ReadsAs text.now (spelled (unit_view u))) }
    ensures refused { IfErr result (λ e. (e ≡ error.Memory) ⊎ IsUnreadable text.now e) }

    // of a text of the value that a unit was written as, in either form
    ensures reads_back { IfOk result (λ r. OfText text.now (λ d. OfWritten d (λ u. placed (unit_view r) ≡ u))) }
    ensures only_readable { IfOk result (λ _. OfText text.now (λ d. OfWritten d IsReadable)) }
    ensures is_read { IfErr result (λ e. OfText text.now (λ d. OfWritten d (λ u. IsReadable u → e ≡ error.Memory))) }
{
    let mut scratch = Scratch::new(alloc);
    let arena = Bump::new(alloc);
    match borrowed_of_text(alloc, text, &mut scratch, &arena) {
        Ok(value) => unit_of_borrowed(alloc, &value),
        Err(fault) => Err(fault),
    }
}

/// The text of the value that a unit is written as, with no space: in form 2 where a node of it has a span other than
/// `0..0`, which that form writes, and else in form 1.
///
/// Where it is read, it is read as that value, and it is read where the value nests at most 127 deep. Refused for want of
/// memory alone.
pub fn text_of_unit(alloc: Global, unit: &TranslationUnit) -> Result<String, Error>
    ensures text { IfOk result (λ text. string_bytes text ≡ compact_text (chosen_value (unit_view unit.now))) }
    ensures is_read { IfOk result (λ text. IsReadBack (chosen_value (unit_view unit.now)) (string_bytes text)) }
    ensures printed { IfOk result (λ text. PrintsAs (spelled (unit_view unit.now)) (string_bytes text)) }
    ensures refused { IfErr result (λ e. e ≡ error.Memory) }
{
    law_of_units();
    law_of_whole_values();
    let spans = shows_span(alloc, unit)?;
    let value = wesl_json_write::value_of_unit(alloc, spans, unit)?;
    text_of_value(alloc, &value)
}
