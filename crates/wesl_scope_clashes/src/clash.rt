//! What is told of an identifier that clashes.

use wesl_tree::Ident;

/// A binder of a module.
#[derive(Clone, Copy, Debug, PartialEq, Eq)]
pub struct Binder {
    /// its number
    pub ident: Ident,
    /// its place among the module's identifiers, in document order
    pub place: usize,
}

/// How a printed name reads where it reads otherwise than its number says.
#[derive(Clone, Copy, Debug, PartialEq, Eq)]
pub enum Reading {
    /// A reference without a path: its name picks this binder, which has another number.
    Captured(Binder),
    /// A reference without a path: its name picks no binder, though its number is one's.
    Unbound,
    /// A binder of the module's block: this one before it has its name and another number.
    Duplicate(Binder),
}

/// An identifier of a module at which its printed name reads otherwise than its number says.
#[derive(Clone, Copy, Debug, PartialEq, Eq)]
pub struct Clash<'a> {
    /// its place among the module's identifiers, in document order
    pub place: usize,
    /// its printed name
    pub name: &'a str,
    /// its number
    pub ident: Ident,
    /// how its name reads
    pub reading: Reading,
}
