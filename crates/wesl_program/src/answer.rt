//! The line of an answer.
ghost use Rattle.std.specs.Prelude.{◌≡◌, IfOk, string_bytes};
ghost use Rattle.wesl_program.specs.Answers.{IsLineOf, PrintsMap};
ghost use Rattle.wesl_program.specs.Line.{answer_beginning};

use crate::map_text::print_map;
use std::alloc::{AllocError, Global};
use wesl_json_print::{print_text, print_unit};
use wesl_source_map::BasicSourceMap;
use wesl_tree::TranslationUnit;

/// What is answered of a linked unit.
#[derive(Drop)]
pub struct Answer {
    /// Whether the names of the unit clash.
    pub clash: bool,
    /// What the names of the unit stand for.
    pub map: BasicSourceMap,
    /// The unit.
    pub unit: TranslationUnit,
    /// Whether the unit is written with spans.
    pub spans: bool,
}

/// The line of an answer.
pub fn answer_line(alloc: Global, answer: &Answer) -> Result<String, AllocError>
    ensures { IfOk result (λ s. IsLineOf answer.now (string_bytes s)) }
{
    let text = answer_head(alloc, answer.clash, &answer.map)?;
    let text = print_text(text, ",\"unit\":")?;
    let text = print_unit(alloc, text, answer.spans, &answer.unit)?;
    print_text(text, "}\n")
}

/// The line of an answer up to its map, with that.
pub fn answer_head(
    alloc: Global,
    clash: bool,
    source_map: &BasicSourceMap,
) -> Result<String, AllocError>
    ensures { IfOk result (λ s. PrintsMap source_map.now (answer_beginning clash) (string_bytes s)) }
{
    let text = String::from_str(alloc, beginning(clash))?;
    print_map(alloc, text, source_map)
}

// What stands before the map.
fn beginning(clash: bool) -> &'static str
    ensures { result.now ≡ answer_beginning clash }
{
    if clash {
        "{\"clash\":true,\"map\":"
    } else {
        "{\"clash\":false,\"map\":"
    }
}
