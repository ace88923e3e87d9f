//! From the bytes of a bundle to the line of its answer.
ghost use Rattle.std.specs.Prelude.{◌≡◌, IfOk, IfErr, string_bytes, false, true};
ghost use Rattle.wesl_program_bundle.specs.Views.{bundle_view};
ghost use Rattle.wesl_tree_names.specs.Path.{is_relative, path_view};
ghost use Rattle.wesl_tree_names.specs.declared.errors.Diagnostic.{out-Diagnostic};
ghost use Rattle.wesl_program.specs.Answers.{IsAnswerFor};
ghost use Rattle.wesl_program.specs.FoundBundle.{FindsBundle, IsFoundOf, AnswersFound, RefusesFound};
ghost use Rattle.wesl_program.specs.Line.{AsksForPlaces, IsAnswerLine, IsRefusal};
ghost use Rattle.wesl_program.specs.Refused.{IsLinkFault};

use crate::answer::{Answer, answer_line};
use crate::bundle_value::bundle_of_bytes;
use crate::linking::{Found, find, linked};
use crate::refusal::Refusal;
use bumpalo::Bump;
use json::Scratch;
use std::alloc::Global;
use wesl_program_bundle::Bundle;
use wesl_tree::Error;

/// The answer's line of the bytes. What was read of them is dropped before the line is made. The place of a fault is told
/// where the bytes are a bundle that asks for form 2.
pub fn answer_of_bytes(alloc: Global, bytes: &[u8]) -> Result<String, Refusal>
    ensures line { IfOk result (λ line. IsAnswerLine bytes.now (string_bytes line)) }
    ensures refused { IfErr result (λ r. IsRefusal bytes.now (out-Diagnostic r.diagnostic).error) }
    ensures placed { IfErr result (λ r. r.is_placed ≡ true → AsksForPlaces bytes.now) }
{
    match linked_of_bytes(alloc, bytes) {
        Ok(answer) => match answer_line(alloc, &answer) {
            Ok(line) => Ok(line),
            Err(_) => Err(Refusal::of(Error::Memory)),
        },
        Err(refusal) => Err(refusal),
    }
}

// What is answered of the bundle that the bytes are. What was read of them is let go once its modules are found, before the
// unit is made.
fn linked_of_bytes(alloc: Global, bytes: &[u8]) -> Result<Answer, Refusal>
    ensures linked { IfOk result (IsAnswerFor bytes.now) }
    ensures refused { IfErr result (λ r. IsRefusal bytes.now (out-Diagnostic r.diagnostic).error) }
    ensures placed { IfErr result (λ r. r.is_placed ≡ true → AsksForPlaces bytes.now) }
{
    match found_of_bytes(alloc, bytes) {
        Ok(found) => answer_of(alloc, found),
        Err(refusal) => Err(refusal),
    }
}

// What is found of the link of the bundle that the bytes are. The scratch and the arena of its values go with the bundle.
fn found_of_bytes(alloc: Global, bytes: &[u8]) -> Result<Found, Refusal>
    ensures found { IfOk result (IsFoundOf bytes.now) }
    ensures refused { IfErr result (λ r. IsRefusal bytes.now (out-Diagnostic r.diagnostic).error) }
    ensures placed { IfErr result (λ r. r.is_placed ≡ true → AsksForPlaces bytes.now) }
{
    let mut scratch = Scratch::new(alloc);
    let arena = Bump::new(alloc);
    match bundle_of_bytes(alloc, bytes, &mut scratch, &arena) {
        Ok(bundle) => found_of(alloc, bundle),
        Err(error) => Err(Refusal::of(error)),
    }
}

// What is found of a bundle. The place of a fault is told where it asks for form 2.
fn found_of(alloc: Global, bundle: Bundle) -> Result<Found, Refusal>
    requires fixed { is_relative (path_view bundle.root) ≡ false }
    ensures found { IfOk result (FindsBundle (bundle_view bundle.entry)) }
    ensures refused { IfErr result (λ r. IsLinkFault (bundle_view bundle.entry) (out-Diagnostic r.diagnostic).error) }
    ensures placed { IfErr result (λ r. r.is_placed ≡ bundle.entry.options.spans) }
{
    let is_placed = bundle.options.spans;
    match find(alloc, bundle) {
        Ok(found) => Ok(found),
        Err(diagnostic) => Err(Refusal {
            diagnostic,
            is_placed,
        }),
    }
}

// What is answered of what was found. The place of a fault is told where the bundle asks for form 2.
fn answer_of(alloc: Global, found: Found) -> Result<Answer, Refusal>
    ensures linked { IfOk result (AnswersFound found) }
    ensures refused { IfErr result (λ r. RefusesFound found (out-Diagnostic r.diagnostic).error) }
    ensures placed { IfErr result (λ r. r.is_placed ≡ found.spans) }
{
    let is_placed = found.spans;
    match linked(alloc, found) {
        Ok(answer) => Ok(answer),
        Err(diagnostic) => Err(Refusal {
            diagnostic,
            is_placed,
        }),
    }
}
