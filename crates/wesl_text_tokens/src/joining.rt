//! Signs joined into symbols, and the tokens that pieces are.
ghost use Rattle.std.specs.Prelude.{◌≡◌, ℕ, ◌+◌, ◌^◌, ◌<◌, ◌≤◌, ◌++◌, suc, length, false, Some, None, is_some, IfOk, IfSome, OnOk, codes};
ghost use Rattle.wesl_text_tokens.specs.Brackets.{brackets};
ghost use Rattle.wesl_text_tokens.specs.Pieces.{a_sign, bits_of};
ghost use Rattle.wesl_text_tokens.specs.Symbols.{symbol_of, symbol_text};
ghost use Rattle.wesl_text_tokens.specs.Tokens.{behind, join, joins, made_of, more, placed_from};
ghost use Rattle.wesl_text_tokens.specs.Joining.{FlagsOf, IsHeldBefore, JoinsTo, LetsGo, bit_at, first_held, held_at};
ghost use Rattle.wesl_text_tokens.specs.Views.{all_placed_of, known_of, pieces_of, token_of};

use crate::lists::Lists;
use crate::piece::{Piece, What};
use crate::symbol::Symbol;
use crate::token::{PlacedToken, Token};
use std::alloc::{AllocError, Global};

/// A symbol that more signs may join, and the first of its pieces.
#[derive(Clone, Copy, Drop)]
pub(crate) struct Held {
    symbol: Symbol,
    first: usize,
}

/// The tokens that pieces are by their template lists.
pub(crate) fn joined_tokens<'a>(
    alloc: Global,
    pieces: &[Piece<'a>],
    lists: &Lists,
) -> Result<Vec<PlacedToken<'a>>, AllocError>
    requires { known_of lists.now ≡ brackets (bits_of (pieces_of pieces.now)) }
    ensures { IfOk result (λ tokens. all_placed_of tokens.items ≡ placed_from (made_of (bits_of (pieces_of pieces.now))) (pieces_of pieces.now)) }
{
    let opened = flags_of(alloc, pieces.len(), lists.opened.as_slice())?;
    let closed = flags_of(alloc, pieces.len(), lists.closed.as_slice())?;
    let mut tokens = Vec::new(alloc);
    let mut held = None;
    for index in 0..pieces.len() {
        held = join(
            &mut tokens,
            held,
            pieces,
            index,
            opened[index],
            closed[index],
        )?;
    }
    release(&mut tokens, held, pieces, pieces.len())?;
    Ok(tokens)
}

/// Of each of so many places, whether it is among these.
fn flags_of(alloc: Global, len: usize, places: &[usize]) -> Result<Vec<bool>, AllocError>
    ensures len { IfOk result (λ flags. length flags.items ≡ len) }
    ensures flags { IfOk result (λ flags. FlagsOf places.now flags.items) }
{
    let mut flags = vec![in alloc; false; len]?;
    for place in places {
        if *place < len {
            flags[*place] = true;
        }
    }
    Ok(flags)
}

/// Goes past a piece, with what is held before it: what is held behind it.
fn join<'a>(
    tokens: &mut Vec<PlacedToken<'a>>,
    held: Option<Held>,
    pieces: &[Piece<'a>],
    index: usize,
    opens: bool,
    closes: bool,
) -> Result<Option<Held>, AllocError>
    requires within { index < length pieces.now }
    requires held { IsHeldBefore index held }
    ensures joins { IfOk result (λ after. JoinsTo (pieces_of pieces.now) index (all_placed_of tokens.old.items) held
        (join opens closes (held_at index held) (bit_at (pieces_of pieces.now) index).is_glued (bit_at (pieces_of pieces.now) index).what)
        (all_placed_of tokens.new.items) after) }
    ensures held { IfOk result (IsHeldBefore (index + 1)) }
{
    match pieces[index].what {
        What::Name(name) => single(tokens, held, pieces, index, Token::Name(name)),
        What::Number(number) => single(tokens, held, pieces, index, Token::Number(number)),
        What::Sign(symbol) => {
            if opens {
                single(tokens, held, pieces, index, Token::OpenList)
            } else if closes {
                single(tokens, held, pieces, index, Token::CloseList)
            } else {
                join_sign(tokens, held, pieces, index, symbol)
            }
        }
    }
}

/// Lets go what is held before a piece, and puts the piece's own token behind it.
fn single<'a>(
    tokens: &mut Vec<PlacedToken<'a>>,
    held: Option<Held>,
    pieces: &[Piece<'a>],
    index: usize,
    token: Token<'a>,
) -> Result<Option<Held>, AllocError>
    requires within { index < length pieces.now }
    requires held { IsHeldBefore index held }
    ensures joins { IfOk result (λ after. JoinsTo (pieces_of pieces.now) index (all_placed_of tokens.old.items) held
        (behind (held_at index held) (token_of token.entry)) (all_placed_of tokens.new.items) after) }
    ensures none { IfOk result (λ after. after ≡ None) }
{
    release(tokens, held, pieces, index)?;
    let piece = pieces[index];
    tokens.push(PlacedToken {
        token,
        start: piece.start,
        end: piece.end,
    })?;
    Ok(None)
}

/// Adds a sign to what is held, or holds it alone and lets go what was held.
fn join_sign<'a>(
    tokens: &mut Vec<PlacedToken<'a>>,
    held: Option<Held>,
    pieces: &[Piece<'a>],
    index: usize,
    symbol: Symbol,
) -> Result<Option<Held>, AllocError>
    requires within { index < length pieces.now }
    requires held { IsHeldBefore index held }
    ensures joins { IfOk result (λ after. JoinsTo (pieces_of pieces.now) index (all_placed_of tokens.old.items) held
        (join false false (held_at index held) (bit_at (pieces_of pieces.now) index).is_glued (a_sign (symbol_text symbol)))
        (all_placed_of tokens.new.items) after) }
    ensures held { IfOk result (IsHeldBefore (index + 1)) }
{
    match added(held, pieces, index, symbol) {
        Some(after) => Ok(Some(after)),
        None => {
            release(tokens, held, pieces, index)?;
            Ok(Some(Held {
                symbol,
                first: index,
            }))
        }
    }
}

/// What is held with another sign, where that stands right behind it and both are a symbol.
fn added(held: Option<Held>, pieces: &[Piece<'_>], index: usize, symbol: Symbol) -> Option<Held>
    requires within { index < length pieces.now }
    requires held { IsHeldBefore index held }
    ensures joins { is_some result ≡ joins (held_at index held) (symbol_text symbol) (bit_at (pieces_of pieces.now) index).is_glued }
    ensures more { IfSome result (λ after. held_at (suc index) (Some after) ≡ more (held_at index held) (symbol_text symbol)) }
    ensures first { IfSome result (λ after. after.first ≡ first_held index held) }
    ensures held { IfSome result (λ after. after.first < index) }
{
    match held {
        None => None,
        Some(before) => {
            if pieces[index - 1].end != pieces[index].start {
                return None;
            }
            match joined(before.symbol, symbol) {
                Some(both) => Some(Held {
                    symbol: both,
                    first: before.first,
                }),
                None => None,
            }
        }
    }
}

/// Lets go what is held before a piece.
fn release<'a>(
    tokens: &mut Vec<PlacedToken<'a>>,
    held: Option<Held>,
    pieces: &[Piece<'a>],
    index: usize,
) -> Result<(), AllocError>
    requires within { index ≤ length pieces.now }
    requires held { IsHeldBefore index held }
    ensures { OnOk result (LetsGo (pieces_of pieces.now) index (all_placed_of tokens.old.items) held (all_placed_of tokens.new.items)) }
{
    match held {
        None => Ok(()),
        Some(held) => {
            tokens.push(PlacedToken {
                token: Token::Symbol(held.symbol),
                start: pieces[held.first].start,
                end: pieces[index - 1].end,
            })?;
            Ok(())
        }
    }
}

/// The symbol that two are where nothing stands between them.
fn joined(first: Symbol, second: Symbol) -> Option<Symbol>
    ensures { result ≡ symbol_of (symbol_text first ++ symbol_text second) }
{
    match second {
        Symbol::Less => match first {
            Symbol::Less => Some(Symbol::ShiftLeft),
            _ => None,
        },
        Symbol::Greater => joined_by_greater(first),
        Symbol::Colon => match first {
            Symbol::Colon => Some(Symbol::ColonColon),
            _ => None,
        },
        Symbol::Equal => joined_by_equal(first),
        Symbol::Plus => match first {
            Symbol::Plus => Some(Symbol::PlusPlus),
            _ => None,
        },
        Symbol::Minus => match first {
            Symbol::Minus => Some(Symbol::MinusMinus),
            _ => None,
        },
        Symbol::And => match first {
            Symbol::And => Some(Symbol::AndAnd),
            _ => None,
        },
        Symbol::Or => match first {
            Symbol::Or => Some(Symbol::OrOr),
            _ => None,
        },
        Symbol::LessEqual => match first {
            Symbol::Less => Some(Symbol::ShiftLeftEqual),
            _ => None,
        },
        Symbol::GreaterEqual => match first {
            Symbol::Greater => Some(Symbol::ShiftRightEqual),
            _ => None,
        },
        _ => None,
    }
}

/// The symbol that another and `=` are.
fn joined_by_equal(first: Symbol) -> Option<Symbol>
    ensures { result ≡ symbol_of (symbol_text first ++ codes "=") }
{
    match first {
        Symbol::Less => Some(Symbol::LessEqual),
        Symbol::Greater => Some(Symbol::GreaterEqual),
        Symbol::Equal => Some(Symbol::EqualEqual),
        Symbol::Plus => Some(Symbol::PlusEqual),
        Symbol::Minus => Some(Symbol::MinusEqual),
        Symbol::Star => Some(Symbol::StarEqual),
        Symbol::Slash => Some(Symbol::SlashEqual),
        Symbol::Percent => Some(Symbol::PercentEqual),
        Symbol::And => Some(Symbol::AndEqual),
        Symbol::Or => Some(Symbol::OrEqual),
        Symbol::Xor => Some(Symbol::XorEqual),
        Symbol::Bang => Some(Symbol::NotEqual),
        Symbol::ShiftLeft => Some(Symbol::ShiftLeftEqual),
        Symbol::ShiftRight => Some(Symbol::ShiftRightEqual),
        _ => None,
    }
}

/// The symbol that another and `>` are.
fn joined_by_greater(first: Symbol) -> Option<Symbol>
    ensures { result ≡ symbol_of (symbol_text first ++ codes ">") }
{
    match first {
        Symbol::Greater => Some(Symbol::ShiftRight),
        Symbol::Minus => Some(Symbol::Arrow),
        _ => None,
    }
}
