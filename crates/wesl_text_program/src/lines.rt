//! The line of a refusal.
ghost use Rattle.std.specs.Prelude.{◌≡◌, ◌⊎◌, IfSome, false};
ghost use Rattle.wesl_tree_names.specs.declared.errors.Diagnostic.{out-Diagnostic};
ghost use Rattle.wesl_text_sink.specs.Words.{is_limit};
ghost use Rattle.wesl_text_linked.specs.declared.text.TextRefusal.TheVariants as refused;
ghost use Rattle.wesl_program.specs.Fault.{fault_of};
ghost use Rattle.wesl_program.specs.Made.{bytes_of};
ghost use Rattle.wesl_text_program.specs.Answers.{TellsRefusal};
ghost use Rattle.wesl_text_program.specs.Line.{IsLineAnywhere, IsLineOfNoText, IsUnreadIn, TellsTextFault};

use std::alloc::Global;
use wesl_program::{Line, Refusal, Told, memory_line, named_line, placed_line, refusal_line};
use wesl_text::PrintFault;
use wesl_text_linked::TextRefusal;
use wesl_tree::{Diagnostic, Error, ImportError, ResolveError};

/// The line of a refusal, or the one for want of memory. It tells where the fault stands, as far as it is known: the module, and
/// in its text the place.
pub(crate) fn refused_line(alloc: Global, refusal: TextRefusal) -> Line
    ensures { TellsRefusal refusal (bytes_of result) }
{
    match refusal {
        TextRefusal::Link(diagnostic) => link_line(alloc, diagnostic),
        TextRefusal::Text(fault) => text_line(alloc, fault),
    }
}

// The line of a fault of a module or of the link.
fn link_line(alloc: Global, diagnostic: Diagnostic) -> Line
    ensures { TellsTextFault (fault_of (out-Diagnostic diagnostic).error) (bytes_of result) }
{
    match line_of_unread(alloc, &diagnostic) {
        Some(line) => {
            drop(diagnostic);
            line
        }
        None => refusal_line(
            alloc,
            Refusal {
                diagnostic,
                is_placed: true,
            },
        ),
    }
}

// The line of a text that says no unit, where a diagnostic tells that.
fn line_of_unread(alloc: Global, diagnostic: &Diagnostic) -> Option<Line>
    ensures { IfSome result (λ line. TellsTextFault (fault_of (out-Diagnostic diagnostic.now).error) (bytes_of line)) }
{
    match unread(diagnostic) {
        Some(told) => Some(unread_line(alloc, told)),
        None => None,
    }
}

// What tells that a text says no unit, and where, in a diagnostic.
fn unread(diagnostic: &Diagnostic) -> Option<&Diagnostic>
    ensures { IfSome result (λ told. IsUnreadIn diagnostic.now told.now) }
{
    match &diagnostic.error {
        Error::BadTree(_) => Some(diagnostic),
        Error::Import(ImportError::ResolveError(ResolveError::Error(inner))) => unread(inner),
        _ => None,
    }
}

// The line of a text that says no unit.
fn unread_line(alloc: Global, told: &Diagnostic) -> Line
    ensures { IsLineAnywhere (fault_of (out-Diagnostic told.now).error) (bytes_of result) }
{
    let place = Told {
        module: told.module.as_ref(),
        span: told.span,
    };
    match placed_line(alloc, &told.error, place) {
        Ok(line) => Line::Made(line),
        Err(_) => memory_line(),
    }
}

// The line of a linked unit without a text.
fn text_line(alloc: Global, fault: PrintFault) -> Line
    ensures { TellsRefusal (refused.Text fault) (bytes_of result) }
{
    match fault {
        PrintFault::Memory | PrintFault::TooLong => memory_line(),
        fault => no_text_line(alloc, fault),
    }
}

// The same, of a unit that no text says.
fn no_text_line(alloc: Global, fault: PrintFault) -> Line
    ensures { IsLineOfNoText (bytes_of result) }
{
    let Ok(reason) = format!(in alloc; "{fault}") else {
        return memory_line();
    };
    match named_line(alloc, "NoText", &[reason.as_str()]) {
        Ok(line) => Line::Made(line),
        Err(_) => memory_line(),
    }
}
