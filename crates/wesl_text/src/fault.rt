//! Why a text says no unit.
ghost use Rattle.std.specs.Prelude.{◌≡◌};
ghost use Rattle.wesl_text.specs.Faults.{fault_of_tokens};

use std::fmt;
use wesl_text_read::Expected;
use wesl_text_sink::symbol_text;
use wesl_text_tokens::{Token, TokenFault};

/// Why a text says no unit, and where: a place is the bytes before it.
#[derive(Clone, Copy, Drop)]
pub enum TextFault<'t> {
    /// A part of the text is no token: a character with which none begins, a number that is none, a comment without end.
    NoToken(TokenFault),
    /// A token stands where the grammar wants another.
    Unexpected {
        /// where the token begins, or where the text ends
        place: u32,
        /// what should have stood there
        expected: Expected,
        /// the token, if there is one
        found: Option<Token<'t>>,
    },
    /// A text of 2^32 bytes or more.
    TooLong,
    /// Want of memory.
    Memory,
}

impl<'t> From<TokenFault> for TextFault<'t> {
    ghost from_gives = { λ given fault. fault ≡ fault_of_tokens given };

    fn from(fault: TokenFault) -> TextFault<'t> {
        match fault {
            TokenFault::TooLong => TextFault::TooLong,
            TokenFault::Memory => TextFault::Memory,
            other => TextFault::NoToken(other),
        }
    }
}

impl<'t> TextFault<'t> {
    /// Where the fault stands, if it stands somewhere.
    pub fn place(&self) -> Option<u32> {
        match self {
            TextFault::NoToken(TokenFault::Character { place, .. }) => Some(*place),
            TextFault::NoToken(TokenFault::Number { place }) => Some(*place),
            TextFault::NoToken(TokenFault::Comment { place }) => Some(*place),
            TextFault::Unexpected { place, .. } => Some(*place),
            _ => None,
        }
    }
}

/// What is wrong, without its place.
impl<'t> fmt::Display for TextFault<'t> {
    fn fmt<W: fmt::Write>(&self, f: &mut fmt::Formatter<W>) -> fmt::Result {
        match self {
            TextFault::NoToken(fault) => fmt::Display::fmt(fault, f),
            TextFault::Unexpected {
                expected,
                found,
                ..
            } => {
                write!(f, "expected ")?;
                write_expected(f, *expected)?;
                write!(f, ", found ")?;
                write_found(f, *found)
            }
            TextFault::TooLong => write!(f, "a text of 2^32 bytes or more"),
            TextFault::Memory => write!(f, "out of memory"),
        }
    }
}

/// The text that `Display` writes.
impl<'t> fmt::Debug for TextFault<'t> {
    fn fmt<W: fmt::Write>(&self, f: &mut fmt::Formatter<W>) -> fmt::Result {
        fmt::Display::fmt(self, f)
    }
}

impl<'t> std::error::Error for TextFault<'t> {}

// Writes what should have stood.
fn write_expected<W: fmt::Write>(f: &mut fmt::Formatter<W>, expected: Expected) -> fmt::Result {
    match expected {
        Expected::Symbol(sign) => write!(f, "`{}`", symbol_text(sign)),
        Expected::OpenList => write!(f, "`<`"),
        Expected::CloseList => write!(f, "`>`"),
        Expected::Name => write!(f, "a name"),
        Expected::Expression => write!(f, "an expression"),
        Expected::Statement => write!(f, "a statement"),
        Expected::Declaration => write!(f, "a declaration"),
        Expected::Target => write!(f, "something that can be assigned to"),
        Expected::Selector => write!(f, "`case`, `default` or `}}`"),
        Expected::ForPart => write!(f, "a declaration, an assignment or a call"),
        Expected::Member => write!(f, "a member"),
        Expected::Import => write!(f, "a name or a list of names to import"),
        Expected::FewerLevels => write!(f, "something that is nested less deep"),
    }
}

// Writes what stands there.
fn write_found<W: fmt::Write>(f: &mut fmt::Formatter<W>, found: Option<Token<'_>>) -> fmt::Result {
    match found {
        Some(Token::Name(word)) => write!(f, "`{word}`"),
        Some(Token::Number(number)) => write!(f, "`{number}`"),
        Some(Token::Symbol(sign)) => write!(f, "`{}`", symbol_text(sign)),
        Some(Token::OpenList) => write!(f, "`<`"),
        Some(Token::CloseList) => write!(f, "`>`"),
        None => write!(f, "the end of the text"),
    }
}
