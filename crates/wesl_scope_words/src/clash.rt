//! What is told of a word that is captured.

use wesl_tree::Ident;

/// A declared name of a module.
#[derive(Clone, Copy, Debug, PartialEq, Eq)]
pub struct Binder {
    /// its number
    pub ident: Ident,
    /// its place among the module's identifiers, in document order
    pub place: usize,
}

/// A word that a variable says in its `<..>`, and a declaration that a compiler may take for what it means.
#[derive(Clone, Copy, Debug, PartialEq, Eq)]
pub struct WordClash<'a> {
    /// the word, which is the printed name of the binder
    pub word: &'a str,
    /// the binder
    pub binder: Binder,
    /// the printed name of the variable
    pub name: &'a str,
    /// the variable
    pub variable: Binder,
}
