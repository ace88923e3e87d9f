//! A text cut into its pieces, in one pass.
ghost use Rattle.std.specs.Prelude.{◌≡◌, ℕ, not, ◌&&◌, ◌+◌, ◌^◌, ◌<◌, ◌≤◌, ◌∷◌, [], length, slice_range, IfOk, IfErr, Ok, Some, option_map, option_to_list};
ghost use Rattle.std.specs.Str.{IsCharBoundary};
ghost use Rattle.wesl_text_tokens.specs.Characters.{goes_on_name};
ghost use Rattle.wesl_text_tokens.specs.Numbers.{is_whole_number};
ghost use Rattle.wesl_text_tokens.specs.Pieces.{a_sign, at_sign, gap, in_name, in_number, in_sign, piece};
ghost use Rattle.wesl_text_tokens.specs.Reading.{AreDigitsTo, DigitsEndAt, FindsItem, IsCharAt, IsAsciiBehind, IsNameTo, IsNumberItem, LeadsTo, TellsFault, read_at, step_of};
ghost use Rattle.wesl_text_tokens.specs.Symbols.{symbol_text};
ghost use Rattle.wesl_text_tokens.specs.Views.{piece_of, pieces_of};

use crate::character::{begins_name, char_at, goes_on_name, is_blank, is_digit};
use crate::comment::{comment_end, line_end};
use crate::fault::TokenFault;
use crate::number::Digits;
use crate::piece::{Piece, What};
use crate::symbol::{Symbol, doubled_symbol, single_symbol};
use std::alloc::Global;

/// What stands at a place, and the place behind it: a piece, or else blanks or a comment.
#[derive(Drop)]
pub(crate) struct Item<'a> {
    pub(crate) piece: Option<Piece<'a>>,
    pub(crate) end: usize,
}

/// The pieces of a text, or the fault where it has none.
pub(crate) fn pieces<'a>(alloc: Global, text: &'a str) -> Result<Vec<Piece<'a>>, TokenFault>
    requires { length text.now < 2 ^ 32 }
    ensures pieces { IfOk result (λ found. read_at text.now gap 0 ≡ Ok (pieces_of found.items)) }
    ensures fault { IfErr result (TellsFault (read_at text.now gap 0)) }
{
    let mut found = Vec::new(alloc);
    let mut at = 0;
    while at < text.len() {
        let item = item_at(text, at)?;
        if let Some(piece) = item.piece {
            found.push(piece)?;
        }
        at = item.end;
    }
    Ok(found)
}

/// What stands at a place.
fn item_at<'a>(text: &'a str, at: usize) -> Result<Item<'a>, TokenFault>
    requires fits { length text.now < 2 ^ 32 }
    requires within { at < length text.now }
    requires boundary { IsCharBoundary text.now at }
    ensures found { FindsItem text.now gap at result }
    ensures onward { IfOk result (λ i. at < i.end) }
{
    let first = char_at(text, at);
    let behind = at + first.len_utf8();
    if is_blank(first) {
        Ok(Item {
            piece: None,
            end: behind,
        })
    } else if begins_name(first) {
        Ok(name(text, at, behind))
    } else if first == '0' {
        number(text, at, behind, Digits::ZeroAlone)
    } else if is_digit(first) {
        number(text, at, behind, Digits::Whole)
    } else {
        match single_symbol(first) {
            Some(symbol) => sign(text, at, first, symbol),
            None => Err(TokenFault::Character {
                character: first,
                place: at as u32,
            }),
        }
    }
}

/// The name that begins at a place, from where it goes on.
#[inline(always)]
fn name<'a>(text: &'a str, start: usize, from: usize) -> Item<'a>
    requires fits { length text.now < 2 ^ 32 }
    requires begins { IsCharBoundary text.now start }
    requires order { start ≤ from }
    requires boundary { IsCharBoundary text.now from }
    ensures { LeadsTo text.now (in_name start (slice_range text.now start from)) from (option_to_list (option_map piece_of result.piece)) result.end }
{
    let end = name_end(text, from);
    let what = What::Name(&text[start..end]);
    Item {
        piece: Some(Piece {
            what,
            start: start as u32,
            end: end as u32,
        }),
        end,
    }
}

/// Where a name ends that goes on from a place.
#[inline(always)]
fn name_end(text: &str, from: usize) -> usize
    requires { IsCharBoundary text.now from }
    ensures { IsNameTo text.now from result }
{
    let mut at = from;
    while at < text.len() {
        let character = char_at(text, at);
        if !goes_on_name(character) {
            return at;
        }
        at += character.len_utf8();
    }
    at
}

/// The number that begins at a place, from where it goes on.
fn number<'a>(
    text: &'a str,
    start: usize,
    from: usize,
    read: Digits,
) -> Result<Item<'a>, TokenFault>
    requires fits { length text.now < 2 ^ 32 }
    requires begins { IsCharBoundary text.now start }
    requires order { start ≤ from }
    requires boundary { IsCharBoundary text.now from }
    ensures { FindsItem text.now (in_number start (slice_range text.now start from) read) from result }
{
    let (end, digits) = digits_end(text, from, read);
    if end == text.len() {
        return number_item(digits.is_whole_number(), text, start, end);
    }
    number_item(ends_number(digits, char_at(text, end)), text, start, end)
}

/// Whether what has been read is a number, where a character stands behind its digits.
#[inline(always)]
fn ends_number(digits: Digits, behind: char) -> bool
    ensures { result ≡ (is_whole_number digits && not (goes_on_name behind)) }
{
    digits.is_whole_number() && !goes_on_name(behind)
}

/// The piece of a number, where it is one.
fn number_item<'a>(
    is_number: bool,
    text: &'a str,
    start: usize,
    end: usize,
) -> Result<Item<'a>, TokenFault>
    requires fits { length text.now < 2 ^ 32 }
    requires begins { IsCharBoundary text.now start }
    requires order { start ≤ end }
    requires boundary { IsCharBoundary text.now end }
    ensures { IsNumberItem text.now start end is_number result }
{
    if !is_number {
        return Err(TokenFault::Number {
            place: start as u32,
        });
    }
    let what = What::Number(&text[start..end]);
    Ok(Item {
        piece: Some(Piece {
            what,
            start: start as u32,
            end: end as u32,
        }),
        end,
    })
}

/// Where the digits of a number end that go on from a place, and what has been read there.
fn digits_end(text: &str, from: usize, read: Digits) -> (usize, Digits)
    requires { IsCharBoundary text.now from }
    ensures digits { AreDigitsTo text.now from read result.0 result.1 }
    ensures ends { DigitsEndAt text.now result.0 result.1 }
    ensures boundary { IsCharBoundary text.now result.0 }
    ensures order { from ≤ result.0 }
{
    let mut at = from;
    let mut digits = read;
    while at < text.len() {
        let character = char_at(text, at);
        match digits.goes_on(character) {
            Some(more) => digits = more,
            None => return (at, digits),
        }
        at += character.len_utf8();
    }
    (at, digits)
}

/// What a sign begins that stands at a place: a comment, a number, or else a piece.
fn sign<'a>(text: &'a str, at: usize, first: char, symbol: Symbol) -> Result<Item<'a>, TokenFault>
    requires fits { length text.now < 2 ^ 32 }
    requires begins { IsCharBoundary text.now at }
    requires there { IsCharAt text.now at first }
    requires ascii { first < 128 }
    requires symbol { symbol_text symbol ≡ first ∷ [] }
    ensures found { FindsItem text.now (in_sign at first) (at + 1) result }
{
    if at + 1 == text.len() {
        return Ok(sign_item(symbol, at, at + 1));
    }
    let second = char_at(text, at + 1);
    match begun_by(first, second) {
        Beginning::LineComment => Ok(Item {
            piece: None,
            end: line_end(text, at + 2),
        }),
        Beginning::BlockComment => match comment_end(text, at, at + 2) {
            Ok(end) => Ok(Item { piece: None, end }),
            Err(fault) => Err(fault),
        },
        Beginning::Number => number(text, at, at + 2, Digits::Pointed),
        Beginning::Double(double) => Ok(sign_item(double, at, at + 2)),
        Beginning::Single => Ok(sign_item(symbol, at, at + 1)),
    }
}

/// What two characters begin of which the first is a sign.
#[derive(Clone, Copy, Drop)]
enum Beginning {
    LineComment,
    BlockComment,
    Number,
    Double(Symbol),
    Single,
}

/// What two characters begin of which the first is a sign.
#[inline(always)]
fn begun_by(first: char, second: char) -> Beginning
    ensures step { (start at : ℕ) → at_sign start first at second ≡ step_of result start first at second }
    ensures ascii { IsAsciiBehind result second }
{
    if first == '/' && second == '/' {
        return Beginning::LineComment;
    }
    if first == '/' && second == '*' {
        return Beginning::BlockComment;
    }
    if first == '.' && is_digit(second) {
        return Beginning::Number;
    }
    if first == second {
        if let Some(double) = doubled_symbol(first) {
            return Beginning::Double(double);
        }
    }
    Beginning::Single
}

/// The piece of a sign.
#[inline(always)]
fn sign_item<'a>(symbol: Symbol, start: usize, end: usize) -> Item<'a>
    requires order { start ≤ end }
    requires fits { end < 2 ^ 32 }
    ensures piece { option_map piece_of result.piece ≡ Some (piece (a_sign (symbol_text symbol)) start end) }
    ensures end { result.end ≡ end }
{
    Item {
        piece: Some(Piece {
            what: What::Sign(symbol),
            start: start as u32,
            end: end as u32,
        }),
        end,
    }
}
