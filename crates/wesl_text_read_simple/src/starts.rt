//! What statements begin with.
ghost use Rattle.std.specs.Prelude.{◌≡◌, IfNone, IfSome, false};
ghost use Rattle.wesl_text_reading.specs.FirstTokens.{statement_label};
ghost use Rattle.wesl_text_read_ahead.specs.Ahead.{tokens_of};
ghost use Rattle.wesl_text_read_simple.specs.Starts.{may_be_part, part_label, start_label, word_label};

use wesl_text_read_ahead::{sign_begins, word_of};
use wesl_text_tokens::{PlacedToken, Symbol};

/// What a statement begins with that may be a part of a `for`.
#[derive(Clone, Copy, Drop)]
pub enum PartStart {
    /// `const`, `let` or `var`
    Declaration,
    /// `_`
    Wildcard,
    /// an expression, or nothing that begins a statement
    Expression,
}

/// What a statement begins with that ends with `;`.
#[derive(Clone, Copy, Drop)]
pub enum SimpleStart {
    /// what a part of a `for` may begin with
    Part(PartStart),
    /// `;`
    Void,
    /// `const_assert`
    ConstAssert,
    /// `break`
    Break,
    /// `continue`
    Continue,
    /// `discard`
    Discard,
    /// `return`
    Return,
}

/// What a statement begins with, behind its attributes.
#[derive(Clone, Copy, Drop)]
pub enum StatementStart {
    /// what a statement that ends with `;` begins with
    Simple(SimpleStart),
    /// `{`
    Compound,
    /// `if`
    If,
    /// `switch`
    Switch,
    /// `loop`
    Loop,
    /// `for`
    For,
    /// `while`
    While,
}

// What a statement begins with that begins with this word.
fn word_start(word: &str) -> StatementStart
    ensures { start_label result ≡ word_label word.now }
{
    match word {
        "_" => StatementStart::Simple(SimpleStart::Part(PartStart::Wildcard)),
        "break" => StatementStart::Simple(SimpleStart::Break),
        "const" => StatementStart::Simple(SimpleStart::Part(PartStart::Declaration)),
        "const_assert" => StatementStart::Simple(SimpleStart::ConstAssert),
        "continue" => StatementStart::Simple(SimpleStart::Continue),
        "discard" => StatementStart::Simple(SimpleStart::Discard),
        "for" => StatementStart::For,
        "if" => StatementStart::If,
        "let" => StatementStart::Simple(SimpleStart::Part(PartStart::Declaration)),
        "loop" => StatementStart::Loop,
        "return" => StatementStart::Simple(SimpleStart::Return),
        "switch" => StatementStart::Switch,
        "var" => StatementStart::Simple(SimpleStart::Part(PartStart::Declaration)),
        "while" => StatementStart::While,
        _ => StatementStart::Simple(SimpleStart::Part(PartStart::Expression)),
    }
}

/// What a statement begins with, by the tokens behind its attributes.
pub fn statement_start(tokens: &[PlacedToken<'_>]) -> StatementStart
    ensures { start_label result ≡ statement_label (tokens_of tokens.now) }
{
    if sign_begins(tokens, Symbol::Semicolon) {
        return StatementStart::Simple(SimpleStart::Void);
    }
    if sign_begins(tokens, Symbol::BraceLeft) {
        return StatementStart::Compound;
    }
    match word_of(tokens) {
        Some(word) => word_start(word),
        None => StatementStart::Simple(SimpleStart::Part(PartStart::Expression)),
    }
}

/// What a part of a `for` begins with, if it may begin so.
pub fn part_start(start: StatementStart) -> Option<PartStart>
    ensures part { IfSome result (λ p. part_label p ≡ start_label start) }
    ensures none { IfNone result (may_be_part (start_label start) ≡ false) }
{
    match start {
        StatementStart::Simple(SimpleStart::Part(part)) => Some(part),
        _ => None,
    }
}
