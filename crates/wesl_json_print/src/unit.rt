//! Printing units.
ghost use Rattle.std.specs.Prelude.{◌≡◌, ◌++◌, IfOk, string_bytes};
ghost use Rattle.serde_json.specs.Data.{no_members};
ghost use Rattle.serde_json.specs.Written.{compact_text};
ghost use Rattle.wesl_json_form.specs.Schema.{second_form};
ghost use Rattle.wesl_json_form.specs.Units.{written_as};
ghost use Rattle.wesl_json_form.specs.Writing.{put_extra};
ghost use Rattle.wesl_json_print_nodes.specs.Printing.{Prints, PrintsMembers};
ghost use Rattle.wesl_tree.specs.Translation.{unit_view};

use crate::directive::print_directives;
use crate::import::print_imports;
use crate::text::TextSink;
use json::Writer;
use std::alloc::{AllocError, Global};
use wesl_json_print_nodes::{Printer, Sink, print_declarations};
use wesl_tree::TranslationUnit;

/// The text, and behind it the value that a unit is written as, as compact JSON, its keys in the order of their bytes.
///
/// It is the text of what `value_of_unit` gives, with the spans where they are asked for (form 2). That value is not made: the unit is
/// printed from its nodes.
pub fn print_unit(
    alloc: Global,
    text: String,
    spans: bool,
    unit: &TranslationUnit,
) -> Result<String, AllocError>
    ensures { IfOk result (λ s. string_bytes s ≡ string_bytes text ++ compact_text (written_as spans (unit_view unit.now))) }
{
    let mut out = Printer::new(alloc, TextSink::new(Writer::new(text.into_bytes())));
    print_unit_to(&mut out, spans, unit);
    let out = out.into_sink().end()?;
    match String::from_utf8(out.into_inner()) {
        Ok(printed) => Ok(printed),
        Err(_) => unreachable!(),
    }
}

/// Prints the value that a unit is written as to a sink, with the spans where they are asked for (form 2).
pub fn print_unit_to<S: Sink>(out: &mut Printer<S>, spans: bool, unit: &TranslationUnit)
    ensures { Prints S.after out.old out.new (written_as spans (unit_view unit.now)) }
{
    let names = unit.names();
    out.begin();
    print_declarations(out, spans, names, unit.global_declarations());
    print_directives(out, spans, names, unit.global_directives());
    print_form(out, spans);
    print_imports(out, spans, names, unit.imports());
    out.close();
}

// Prints the member that says form 2, where spans are printed.
fn print_form<S: Sink>(out: &mut Printer<S>, spans: bool)
    ensures { PrintsMembers S.after out.old out.new (put_extra spans second_form no_members) }
{
    if spans {
        out.key("form");
        out.number(2);
    }
}
