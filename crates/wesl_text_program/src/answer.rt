//! The line of an answer.
ghost use Rattle.std.specs.Prelude.{◌≡◌, IfOk, string_bytes};
ghost use Rattle.serde_json.specs.Data.{string};
ghost use Rattle.serde_json.specs.Written.{compact_text};
ghost use Rattle.wesl_text_program.specs.Answers.{IsLineOf};

use serde_json::Value;
use std::alloc::{AllocError, Global};
use wesl_json_print::print_text;
use wesl_program::answer_head;
use wesl_text_linked::{LinkedText, LinkedUnit};

/// The line of a linked text: whether the names of its unit clash, what they stand for, and the text.
pub(crate) fn answer_line(alloc: Global, linked: LinkedText) -> Result<String, AllocError>
    ensures { IfOk result (λ s. IsLineOf linked (string_bytes s)) }
{
    let LinkedText { text, linked } = linked;
    let LinkedUnit { unit, map, clash } = linked;
    drop(unit);
    let line = answer_head(alloc, clash, &map)?;
    let line = print_text(line, ",\"text\":")?;
    let text = quoted(alloc, text)?;
    let line = print_text(line, &text)?;
    print_text(line, "}\n")
}

// The text as JSON.
fn quoted(alloc: Global, text: String) -> Result<String, AllocError>
    ensures { IfOk result (λ s. string_bytes s ≡ compact_text (string (string_bytes text))) }
{
    let value = Value::String(text);
    value.to_string(alloc)
}
