//! Where a byte of a text stands.
ghost use Rattle.std.specs.Prelude.{◌≡◌, ℕ, suc, ◌^◌, ◌<◌, chars};
ghost use Rattle.wesl_text_lines.specs.Lines.{column_of, line_of, line_start_of};
ghost use Rattle.wesl_text_lines.specs.Steps.{behind};

use crate::line_end::ends_line;

/// Where a byte of a text stands.
#[derive(Clone, Copy)]
pub struct Place {
    /// The line.
    pub line: usize,
    /// The character in the line.
    pub column: usize,
    /// The byte with which the line begins.
    pub line_start: usize,
}

/// The place of a byte in a text, which is that of its character; of one behind the end, that of the end.
pub fn place_of(text: &str, offset: usize) -> Place
    ensures line { result.line ≡ line_of text.now offset }
    ensures column { result.column ≡ column_of text.now offset }
    ensures line_start { result.line_start ≡ line_start_of text.now offset }
{
    let mut place = Place {
        line: 1,
        column: 1,
        line_start: 0,
    };
    let mut rest = text.char_indices();
    while let Some((_, character)) = rest.next() {
        let end = rest.offset();
        if end > offset {
            return place;
        }
        place = behind(place, character, rest.as_str(), end);
    }
    place
}

// The place behind a character, which ends at this byte, before what follows it.
fn behind(place: Place, character: char, rest: &str, end: usize) -> Place
    requires line { suc place.line < 2 ^ 64 }
    requires column { suc place.column < 2 ^ 64 }
    ensures { result ≡ behind place character (chars rest.now) end }
{
    if ends_line(character, rest) {
        Place {
            line: place.line + 1,
            column: 1,
            line_start: end,
        }
    } else {
        Place {
            column: place.column + 1,
            ..place
        }
    }
}
