//! From the bytes of a bundle of texts to its line.
ghost use Rattle.std.specs.Prelude.{IfOk, IfErr, string_bytes};
ghost use Rattle.wesl_program.specs.Made.{bytes_of};
ghost use Rattle.wesl_text_program.specs.Answers.{AnswersBytes, RefusesBytes};
ghost use Rattle.wesl_text_program.specs.Line.{IsTextFaultLine, IsTextLine};

use crate::answer::answer_line;
use crate::lines::refused_line;
use crate::linking::text_of_bundle;
use bumpalo::Bump;
use json::Scratch;
use std::alloc::Global;
use wesl_program::{Line, bundle_of_bytes, memory_line};
use wesl_text_linked::{LinkedText, TextRefusal};
use wesl_tree::Diagnostic;

/// The line of the bytes of a bundle of texts: that of the answer, which has the linked text, or that of a fault, each with its
/// line feed.
///
/// # Errors
///
/// The line of a fault: of the bytes, which are no bundle; of a module, a link, a name or the linked unit's text; or of want of
/// memory, whose line takes none.
pub fn line_of_texts(alloc: Global, bytes: &[u8]) -> Result<String, Line>
    ensures answer { IfOk result (λ line. IsTextLine bytes.now (string_bytes line)) }
    ensures fault { IfErr result (λ line. IsTextFaultLine bytes.now (bytes_of line)) }
{
    match text_of_bytes(alloc, bytes) {
        Ok(linked) => match answer_line(alloc, linked) {
            Ok(line) => Ok(line),
            Err(_) => Err(memory_line()),
        },
        Err(refusal) => Err(refused_line(alloc, refusal)),
    }
}

// The linked text of the bundle that the bytes are. What was read of them goes with it.
fn text_of_bytes(alloc: Global, bytes: &[u8]) -> Result<LinkedText, TextRefusal>
    ensures linked { IfOk result (AnswersBytes bytes.now) }
    ensures refused { IfErr result (RefusesBytes bytes.now) }
{
    let mut scratch = Scratch::new(alloc);
    let arena = Bump::new(alloc);
    match bundle_of_bytes(alloc, bytes, &mut scratch, &arena) {
        Ok(bundle) => text_of_bundle(alloc, bundle),
        Err(error) => Err(TextRefusal::Link(Diagnostic::of(error))),
    }
}
