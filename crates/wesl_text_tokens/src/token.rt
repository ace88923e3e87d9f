//! Tokens, which borrow their text.
use crate::symbol::Symbol;

/// A token of shader text (WGSL, "Tokens").
#[derive(Clone, Copy, Debug, Drop)]
pub enum Token<'a> {
    /// A name: an identifier, a keyword or `_`.
    Name(&'a str),
    /// The literal of a number.
    Number(&'a str),
    /// A symbol.
    Symbol(Symbol),
    /// The `<` that opens a template list.
    OpenList,
    /// The `>` that closes one.
    CloseList,
}

/// A token, with the bytes of the text before it and the bytes before its end.
#[derive(Clone, Copy, Debug, Drop)]
pub struct PlacedToken<'a> {
    pub token: Token<'a>,
    pub start: u32,
    pub end: u32,
}
