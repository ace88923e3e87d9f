//! Which characters end a line.
ghost use Rattle.std.specs.Prelude.{◌≡◌, chars};
ghost use Rattle.wesl_text_tokens.specs.Characters.{is_line_end};
ghost use Rattle.wesl_text_lines.specs.Lines.{ends_line};

/// Whether a character is a line end, alone or beside another.
pub fn is_line_end(character: char) -> bool
    ensures { result ≡ is_line_end character }
{
    match character {
        '\n' | '\u{b}' | '\u{c}' | '\r' | '\u{85}' | '\u{2028}' | '\u{2029}' => true,
        _ => false,
    }
}

/// Whether a line ends behind a character, before what follows it: `\r\n` ends one line.
pub(crate) fn ends_line(character: char, rest: &str) -> bool
    ensures { result ≡ ends_line character (chars rest.now) }
{
    match character {
        '\r' => match rest.chars().next() {
            Some('\n') => false,
            _ => true,
        },
        _ => is_line_end(character),
    }
}
