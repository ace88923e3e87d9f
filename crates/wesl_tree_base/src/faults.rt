//! The faults that hold no path: of conditions, and those that validators find.
use std::fmt;
use thiserror::Error;

/// Why a conditional attribute is refused (WESL, "ConditionalTranslation").
#[derive(Drop, Error)]
pub enum CondCompError {
    /// A flag is written with template arguments. It carries the flag's name.
    #[error("invalid feature flag `{0}`")]
    InvalidFeatureFlag(String),
    /// The features answer a flag with a refusal. It carries the flag's name.
    #[error("unexpected feature flag `{0}`")]
    UnexpectedFeatureFlag(String),
    /// A condition is none of `true`, `false`, a flag, parentheses, `!`, `&&` and `||`.
    #[error("invalid expression in a condition")]
    InvalidExpression,
    /// An `@elif` or `@else` does not stand directly after an `@if` or `@elif`.
    #[error("no `@if` stands before this branch")]
    NoPrecedingIf,
    /// A node has two conditional attributes.
    #[error("two conditions on one node")]
    DuplicateIf,
}

/// Why a linked module is refused by a validator (WGSL, "Declaration and Scope").
#[derive(Drop, Error)]
pub enum ValidateError {
    /// A reference that is no declaration's and no builtin's. It carries the name.
    #[error("undefined symbol `{0}`")]
    UndefinedSymbol(String),
    /// A call with the wrong number of arguments. It carries the name of what is called, how many
    /// arguments it takes, and how many it got.
    #[error("`{0}` takes {1} arguments, and got {2}")]
    ParamCount(String, usize, usize),
    /// A call of what is no function and no type. It carries its name.
    #[error("`{0}` cannot be called")]
    NotCallable(String),
    /// Two declarations of one scope have one name. It carries the name.
    #[error("`{0}` is declared twice")]
    Duplicate(String),
    /// A declaration refers to itself, by way of others. It carries its name, and the name of a
    /// declaration on the way that refers to it.
    #[error("`{0}` reaches itself by `{1}`")]
    Cycle(String, String),
}

/// The text that `Display` writes.
impl fmt::Debug for CondCompError {
    fn fmt<W: fmt::Write>(&self, f: &mut fmt::Formatter<W>) -> fmt::Result {
        fmt::Display::fmt(self, f)
    }
}

/// The text that `Display` writes.
impl fmt::Debug for ValidateError {
    fn fmt<W: fmt::Write>(&self, f: &mut fmt::Formatter<W>) -> fmt::Result {
        fmt::Display::fmt(self, f)
    }
}
