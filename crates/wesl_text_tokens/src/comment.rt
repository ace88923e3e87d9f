//! Comments (WGSL, "Comments").
ghost use Rattle.std.specs.Prelude.{◌≡◌, ℕ, ◌+◌, ◌^◌, ◌<◌, ◌≤◌, [], length};
ghost use Rattle.std.specs.Str.{IsCharBoundary};
ghost use Rattle.wesl_text_tokens.specs.declared.comment.Half.TheVariants as half;
ghost use Rattle.wesl_text_tokens.specs.Pieces.{block_comment, in_comment, line_comment};
ghost use Rattle.wesl_text_tokens.specs.Reading.{FindsEnd, LeadsTo, comment_mode};

use crate::character::{char_at, is_line_end};
use crate::fault::TokenFault;

/// The last character in a block comment, where it may be half of a mark.
#[derive(Clone, Copy, Drop)]
pub(crate) enum Half {
    Neither,
    Slash,
    Star,
}

/// The place behind a line comment.
pub(crate) fn line_end(text: &str, from: usize) -> usize
    requires { IsCharBoundary text.now from }
    ensures { LeadsTo text.now line_comment from [] result }
{
    let mut at = from;
    while at < text.len() {
        let character = char_at(text, at);
        at += character.len_utf8();
        if is_line_end(character) {
            return at;
        }
    }
    at
}

/// The place behind a block comment that begins at a place and whose first mark ends at another.
pub(crate) fn comment_end(text: &str, start: usize, from: usize) -> Result<usize, TokenFault>
    requires fits { length text.now < 2 ^ 32 }
    requires order { start ≤ from }
    requires boundary { IsCharBoundary text.now from }
    ensures { FindsEnd text.now (block_comment start 1 half.Neither) from result }
{
    let mut at = from;
    let mut depth = 1;
    let mut half = Half::Neither;
    while at < text.len() {
        let character = char_at(text, at);
        at += character.len_utf8();
        let (left, last) = in_comment(depth, half, character);
        if left == 0 {
            return Ok(at);
        }
        depth = left;
        half = last;
    }
    Err(TokenFault::Comment {
        place: start as u32,
    })
}

/// How many block comments are open behind a character, and which half of a mark it may be.
#[inline(always)]
fn in_comment(depth: usize, half: Half, character: char) -> (usize, Half)
    requires some { 0 < depth }
    requires fits { depth < 2 ^ 33 }
    ensures mode { (start : ℕ) → comment_mode start result.0 result.1 ≡ in_comment start depth half character }
    ensures one_more { result.0 ≤ depth + 1 }
{
    match half {
        Half::Slash => match character {
            '*' => (depth + 1, Half::Neither),
            '/' => (depth, Half::Slash),
            _ => (depth, Half::Neither),
        },
        Half::Star => match character {
            '/' => (depth - 1, Half::Neither),
            '*' => (depth, Half::Star),
            _ => (depth, Half::Neither),
        },
        Half::Neither => match character {
            '/' => (depth, Half::Slash),
            '*' => (depth, Half::Star),
            _ => (depth, Half::Neither),
        },
    }
}
