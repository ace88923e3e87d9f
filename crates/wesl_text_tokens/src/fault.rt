//! Why a text has no tokens.
ghost use Rattle.std.specs.Prelude.{◌≡◌};
ghost use Rattle.wesl_text_tokens.specs.declared.fault.TokenFault.TheVariants as told;

use std::alloc::{AllocError, AllocFailed};
use std::fmt;

/// Why a text has no tokens, and where: a place is the bytes before it.
#[derive(Clone, Copy, Debug, PartialEq, Eq, Drop)]
pub enum TokenFault {
    /// A character with which no token begins, where it stands.
    Character { character: char, place: u32 },
    /// What begins as a number and is none, where it begins.
    Number { place: u32 },
    /// A block comment that does not end, where it begins.
    Comment { place: u32 },
    /// A text of 2^32 bytes or more.
    TooLong,
    /// Want of memory.
    Memory,
}

impl<T: Drop> From<AllocFailed<T>> for TokenFault {
    ghost from_gives = { λ _ fault. fault ≡ told.Memory };

    fn from(_failure: AllocFailed<T>) -> TokenFault {
        TokenFault::Memory
    }
}

impl From<AllocError> for TokenFault {
    ghost from_gives = { λ _ fault. fault ≡ told.Memory };

    fn from(_failure: AllocError) -> TokenFault {
        TokenFault::Memory
    }
}

impl fmt::Display for TokenFault {
    fn fmt<W: fmt::Write>(&self, f: &mut fmt::Formatter<W>) -> fmt::Result {
        match self {
            TokenFault::Character { character, place } => {
                write!(
                    f,
                    "no token begins with {character:?}, which stands at byte {place}"
                )
            }
            TokenFault::Number { place } => {
                write!(
                    f,
                    "what begins as a number at byte {place} is no number of WGSL"
                )
            }
            TokenFault::Comment { place } => {
                write!(
                    f,
                    "the comment that begins at byte {place} is not ended by `*/`"
                )
            }
            TokenFault::TooLong => write!(f, "a text of 2^32 bytes or more"),
            TokenFault::Memory => write!(f, "out of memory"),
        }
    }
}

impl std::error::Error for TokenFault {}
