//! Lines and columns of a text, counted from 0, where columns count code units of UTF-16.
ghost use Rattle.std.specs.Prelude.{◌≡◌, ◌+◌, ◌<◌, length, IfOk};
ghost use Rattle.wesl_text_mappings.specs.Positions.{byte, ends_line, position, positions, units};

use std::alloc::{AllocError, Global};

/// Where a byte of a text stands.
#[derive(Clone, Copy)]
pub struct Position {
    /// The line.
    pub line: usize,
    /// The code units of UTF-16 before it in the line.
    pub column: usize,
}

/// The byte at a place, 0 where there is none.
fn byte(bytes: &[u8], place: usize) -> u8
    ensures { result ≡ byte bytes.now place }
{
    match bytes.get(place) {
        Some(byte) => *byte,
        None => 0,
    }
}

/// Whether a line ends with the byte at a place: `\r\n` ends one line.
fn ends_line(bytes: &[u8], place: usize) -> bool
    requires { place < length bytes.now }
    ensures { result ≡ ends_line bytes.now place }
{
    let before = byte(bytes, place.saturating_sub(1));
    match byte(bytes, place) {
        0x0a..=0x0c => true,
        0x0d => byte(bytes, place + 1) != 0x0a,
        0x85 => before == 0xc2,
        0xa8 | 0xa9 => before == 0x80 && byte(bytes, place.saturating_sub(2)) == 0xe2,
        _ => false,
    }
}

/// How many code units of UTF-16 begin with a byte of UTF-8.
fn units(byte: u8) -> usize
    ensures { result ≡ units byte }
{
    match byte {
        0..0x80 => 1,
        0x80..0xc0 => 0,
        0xc0..0xf0 => 1,
        _ => 2,
    }
}

/// The place behind a byte.
fn behind(place: Position, bytes: &[u8], at: usize) -> Position
    requires within { at < length bytes.now }
    requires place { place ≡ position bytes.now at }
    ensures { result ≡ position bytes.now (at + 1) }
{
    if ends_line(bytes, at) {
        return Position {
            line: place.line + 1,
            column: 0,
        };
    }
    Position {
        line: place.line,
        column: place.column + units(byte(bytes, at)),
    }
}

/// The places of the bytes of a text, and behind them that of its end. Refused for want of memory alone.
pub fn positions_of(alloc: Global, text: &str) -> Result<Vec<Position>, AllocError>
    ensures { IfOk result (λ places. places.items ≡ positions text.now (length text.now)) }
{
    let bytes = text.as_bytes();
    let mut place = Position { line: 0, column: 0 };
    let mut places = Vec::new(alloc);
    places.push(place)?;
    for at in 0..bytes.len() {
        place = behind(place, bytes, at);
        places.push(place)?;
    }
    Ok(places)
}
