//! Printing units as shader text.
ghost use Rattle.std.specs.Prelude.{◌≡◌, IfOk, IfErr, false, string_bytes};
ghost use Rattle.wesl_text_form.specs.Says.{IsWritable, TextSays, spelling};
ghost use Rattle.wesl_text_sink.specs.Words.{is_limit};
ghost use Rattle.wesl_text_tokens.specs.Tokens.{tokens};
ghost use Rattle.wesl_tree.specs.Translation.{unit_view};
ghost use Rattle.wesl_tree_syntax.specs.Unit.{spelled};

use std::alloc::Global;
use wesl_text_sink::{PrintFault, TextSink, law_of_printing};
use wesl_text_writable::law_of_fewest;
use wesl_tree::TranslationUnit;

/// The text of a unit, laid out in lines: what the grammar of WGSL with WESL's imports and conditional attributes asks for, and no
/// token that may be left out.
///
/// # Errors
///
/// Where no text says the unit, why not; [`PrintFault::NotAsMeant`] where its text would be read otherwise; and the limits,
/// [`PrintFault::TooLong`] for a text of 2^32 bytes or more and [`PrintFault::Memory`].
pub fn print_unit(alloc: Global, unit: &TranslationUnit) -> Result<String, PrintFault>
    ensures said { IfOk result (λ t. TextSays (string_bytes t) (spelled (unit_view unit.now))) }
    ensures tokens { IfOk result (λ t. tokens (string_bytes t) ≡ spelling (spelled (unit_view unit.now))) }
    ensures unwritable { IfErr result (λ e. is_limit e ≡ false → IsWritable (spelled (unit_view unit.now)) ≡ false) }
{
    law_of_fewest();
    law_of_printing();
    let mut sink = TextSink::new(alloc);
    wesl_text_print_unit::print_unit(&mut sink, unit);
    sink.finish()
}
