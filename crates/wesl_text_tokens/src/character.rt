//! What characters are, and which stands at a place (WGSL, "Blankspace and Line Breaks", "Identifiers").
ghost use Rattle.std.specs.Prelude.{◌≡◌, ◌<◌, length, true};
ghost use Rattle.std.specs.Str.{IsCharBoundary};
ghost use Rattle.wesl_text_tokens.specs.Characters.{begins_name, goes_on_name, is_blank, is_digit, is_hex, is_letter, is_line_end};
ghost use Rattle.wesl_text_tokens.specs.Reading.{IsCharAt};

/// The character at a place.
#[inline(always)]
pub(crate) fn char_at(text: &str, at: usize) -> char
    requires within { at < length text.now }
    requires boundary { IsCharBoundary text.now at }
    ensures { IsCharAt text.now at result }
{
    let byte = text.as_bytes()[at];
    if byte < 128 {
        byte as char
    } else {
        wide_char_at(text, at)
    }
}

/// The character at a place, where it is not of ASCII.
fn wide_char_at(text: &str, at: usize) -> char
    requires within { at < length text.now }
    requires boundary { IsCharBoundary text.now at }
    ensures { IsCharAt text.now at result }
{
    match text[at..].chars().next() {
        Some(character) => character,
        None => unreachable!(),
    }
}

/// Whether the character is one of the blanks.
#[inline(always)]
pub(crate) fn is_blank(c: char) -> bool
    ensures { result ≡ is_blank c }
{
    match c {
        ' ' | '\n' | '\t' | '\r' | '\u{0b}' | '\u{0c}' => true,
        '\u{85}' | '\u{200e}' | '\u{200f}' | '\u{2028}' | '\u{2029}' => true,
        _ => false,
    }
}

/// Whether the blank ends a line.
#[inline(always)]
pub(crate) fn is_line_end(c: char) -> bool
    ensures { result ≡ is_line_end c }
{
    match c {
        '\n' | '\r' | '\u{0b}' | '\u{0c}' | '\u{85}' | '\u{2028}' | '\u{2029}' => true,
        _ => false,
    }
}

/// Whether the character is a digit.
#[inline(always)]
pub(crate) fn is_digit(c: char) -> bool
    ensures value { result ≡ is_digit c }
    ensures ascii { result ≡ true → c < 128 }
{
    '0' <= c && c <= '9'
}

/// Whether the character is a digit of base 16.
#[inline(always)]
pub(crate) fn is_hex(c: char) -> bool
    ensures { result ≡ is_hex c }
{
    is_digit(c) || 'A' <= c && c <= 'F' || 'a' <= c && c <= 'f'
}

/// Whether the character is a letter of ASCII.
#[inline(always)]
fn is_letter(c: char) -> bool
    ensures { result ≡ is_letter c }
{
    'a' <= c && c <= 'z' || 'A' <= c && c <= 'Z'
}

/// Whether a name may begin with the character.
#[inline(always)]
pub(crate) fn begins_name(c: char) -> bool
    ensures { result ≡ begins_name c }
{
    if c < '\u{80}' {
        c == '_' || is_letter(c)
    } else {
        unicode_ident::is_xid_start(c)
    }
}

/// Whether a name may go on with the character.
#[inline(always)]
pub(crate) fn goes_on_name(c: char) -> bool
    ensures { result ≡ goes_on_name c }
{
    if c < '\u{80}' {
        c == '_' || is_letter(c) || is_digit(c)
    } else {
        unicode_ident::is_xid_continue(c)
    }
}
