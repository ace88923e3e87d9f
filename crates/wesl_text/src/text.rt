//! Units as shader text.
ghost use Rattle.std.specs.Prelude.{◌≡◌, ◌⊎◌, IfErr, IfOk, None, string_bytes};
ghost use Rattle.wesl_tree_names.specs.declared.errors.Diagnostic.{out-Diagnostic};
ghost use Rattle.wesl_tree_names.specs.declared.errors.Error as error;
ghost use Rattle.wesl_tree.specs.Translation.{unit_view};
ghost use Rattle.wesl_tree_syntax.specs.Unit.{spelled};
ghost use Rattle.wesl_text_form.specs.Says.{TextSays};
ghost use Rattle.wesl_text_tokens.specs.Tokens.{tokens};
ghost use Rattle.wesl_text.specs.Printed.{PrintsAs};
ghost use Rattle.wesl_text.specs.Said.{IsToldAs, IsUnreadable};

use crate::fault::TextFault;
use crate::printing::print_unit;
use crate::reading::read_unit;
use std::alloc::{AllocError, Global};
use wesl_resolve_base::UnitText;
use wesl_text_sink::PrintFault;
use wesl_tree::{Diagnostic, Error, TranslationUnit};
use wesl_tree_names::Span;

/// Units as shader text: WGSL with WESL's imports and conditional attributes, read as [`read_unit`] reads it and printed as
/// [`print_unit`] prints it. A unit that no text says is printed as a text that says none.
#[derive(Clone, Copy, Debug, Default)]
pub struct WeslText;

impl UnitText for WeslText {
    ghost use Rattle.wesl_text_form.specs.Says.{TextSays};
    ghost use Rattle.wesl_text.specs.Printed.{PrintsAs, said_again};
    ghost use Rattle.wesl_text.specs.Said.{IsUnreadable};

    ghost reads = { λ _ text u. TextSays text u };

    ghost unreadable = { λ _ text e. IsUnreadable text e };

    ghost prints = { λ _ u text. PrintsAs u text };

    fn read(&self, alloc: Global, text: &str) -> Result<TranslationUnit, Diagnostic> {
        unit_of_text(alloc, text)
    }

    fn print(&self, alloc: Global, unit: &TranslationUnit) -> Result<String, Diagnostic> {
        text_of_unit(alloc, unit)
    }

    ghost reads_back = { λ _ u v text paths printed read. said_again u v text printed read };
}

// The unit that a text says, or the diagnostic of its fault: `BadTree` with what is wrong, at its place.
fn unit_of_text(alloc: Global, text: &str) -> Result<TranslationUnit, Diagnostic>
    ensures read { IfOk result (λ u. TextSays text.now (spelled (unit_view u))) }
    ensures refused { IfErr result (λ d. ((out-Diagnostic d).error ≡ error.Memory) ⊎ IsUnreadable text.now (out-Diagnostic d).error) }
{
    match read_unit(alloc, text) {
        Ok(unit) => Ok(unit),
        Err(fault) => Err(diagnostic_of(alloc, fault)),
    }
}

// The diagnostic of a fault.
fn diagnostic_of(alloc: Global, fault: TextFault<'_>) -> Diagnostic
    ensures { ((out-Diagnostic result).error ≡ error.Memory) ⊎ IsToldAs fault.entry (out-Diagnostic result).error }
{
    if is_memory(&fault) {
        return Diagnostic::of(Error::Memory);
    }
    match format!(in alloc; "{fault}") {
        Ok(reason) => at_place(Error::BadTree(reason), fault.place()),
        Err(_) => Diagnostic::of(Error::Memory),
    }
}

// Whether memory was wanted.
fn is_memory(fault: &TextFault<'_>) -> bool {
    match fault {
        TextFault::Memory => true,
        _ => false,
    }
}

// An error at a place, if it stands somewhere.
fn at_place(error: Error, place: Option<u32>) -> Diagnostic
    ensures { (out-Diagnostic result).error ≡ error }
{
    match place {
        Some(start) => Diagnostic::at(error, Span { start, end: start }),
        None => Diagnostic::of(error),
    }
}

// A text that says a unit, or one that says none.
fn text_of_unit(alloc: Global, unit: &TranslationUnit) -> Result<String, Diagnostic>
    ensures printed { IfOk result (λ t. PrintsAs (spelled (unit_view unit.now)) (string_bytes t)) }
    ensures refused { IfErr result (λ d. (out-Diagnostic d).error ≡ error.Memory) }
{
    match print_unit(alloc, unit) {
        Ok(text) => Ok(text),
        Err(PrintFault::Memory | PrintFault::TooLong) => Err(Diagnostic::of(Error::Memory)),
        Err(_) => match no_text(alloc) {
            Ok(text) => Ok(text),
            Err(_) => Err(Diagnostic::of(Error::Memory)),
        },
    }
}

// A text without tokens: a comment that does not end.
fn no_text(alloc: Global) -> Result<String, AllocError>
    ensures { IfOk result (λ t. tokens (string_bytes t) ≡ None) }
{
    String::from_str(alloc, "/*")
}
