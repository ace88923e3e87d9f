//! The pieces of a text: names, numbers and signs.
use crate::symbol::Symbol;

/// What a piece is.
#[derive(Clone, Copy, Drop)]
pub(crate) enum What<'a> {
    Name(&'a str),
    Number(&'a str),
    Sign(Symbol),
}

/// A piece, with the bytes before it and the bytes before its end.
#[derive(Clone, Copy, Drop)]
pub(crate) struct Piece<'a> {
    pub(crate) what: What<'a>,
    pub(crate) start: u32,
    pub(crate) end: u32,
}
