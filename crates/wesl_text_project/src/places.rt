//! The line of a text in which something stands, with marks below it.
use std::alloc::{AllocError, Global};
use wesl_text_lines::{is_line_end, place_of};

// A line that is longer is not shown.
const MOST_SHOWN: usize = 300;

/// The line of a text in which the bytes from `start` to `end` stand, and below it marks under what they cover. Nothing where the
/// line is long.
pub fn line_at(alloc: Global, text: &str, start: usize, end: usize) -> Result<String, AllocError> {
    let place = place_of(text, start);
    let line = line_from(text.get(place.line_start..).unwrap_or(""));
    if line.chars().count() > MOST_SHOWN {
        return Ok(String::new(alloc));
    }
    let mut shown = format!(in alloc; "    {line}\n    ")?;
    pad(&mut shown, line, place.column)?;
    let line_end = place.line_start.saturating_add(line.len());
    let covered = text.get(start..end.min(line_end)).unwrap_or("");
    mark(&mut shown, covered)?;
    Ok(shown)
}

// What a text has before its first line ends.
fn line_from(text: &str) -> &str {
    for (index, character) in text.char_indices() {
        if is_line_end(character) {
            return text.get(..index).unwrap_or(text);
        }
    }
    text
}

// Blanks as wide as what stands before a column.
fn pad(shown: &mut String, line: &str, column: usize) -> Result<(), AllocError> {
    for character in line.chars().take(column.saturating_sub(1)) {
        shown.push(if character == '\t' { '\t' } else { ' ' })?;
    }
    Ok(())
}

// A mark for each character, and one where there is none.
fn mark(shown: &mut String, covered: &str) -> Result<(), AllocError> {
    if covered.is_empty() {
        shown.push('^')?;
    }
    for _character in covered.chars() {
        shown.push('^')?;
    }
    Ok(())
}
