//! What declarations begin with.
ghost use Rattle.std.specs.Prelude.{◌≡◌, option_map};
ghost use Rattle.wesl_text_tokens.specs.Symbols.{look_up};
ghost use Rattle.wesl_text_reading.specs.FirstTokens.{declaration_label, words_of_declarations};
ghost use Rattle.wesl_text_read_ahead.specs.Ahead.{tokens_of};
ghost use Rattle.wesl_text_read_unit.specs.Starts.{start_kind, start_label};

use wesl_text_read_ahead::{sign_begins, word_of};
use wesl_text_tokens::{PlacedToken, Symbol};

/// What a declaration begins with, behind its attributes.
#[derive(Clone, Copy, Drop)]
pub enum DeclarationStart {
    /// `;`
    Void,
    /// `const`, `override` or `var`
    Variable,
    /// `const_assert`
    Assertion,
    /// `alias`
    Alias,
    /// `struct`
    Struct,
    /// `fn`
    Function,
}

// The declaration that a word begins, if it begins one.
fn declaration_of(word: &str) -> Option<DeclarationStart>
    ensures { option_map start_kind result ≡ look_up word.now words_of_declarations }
{
    match word {
        "alias" => Some(DeclarationStart::Alias),
        "const" => Some(DeclarationStart::Variable),
        "const_assert" => Some(DeclarationStart::Assertion),
        "fn" => Some(DeclarationStart::Function),
        "override" => Some(DeclarationStart::Variable),
        "struct" => Some(DeclarationStart::Struct),
        "var" => Some(DeclarationStart::Variable),
        _ => None,
    }
}

/// The declaration that begins with these tokens, if one does.
pub fn declaration_start(tokens: &[PlacedToken<'_>]) -> Option<DeclarationStart>
    ensures { option_map start_label result ≡ declaration_label (tokens_of tokens.now) }
{
    if sign_begins(tokens, Symbol::Semicolon) {
        return Some(DeclarationStart::Void);
    }
    match word_of(tokens) {
        Some(word) => declaration_of(word),
        None => None,
    }
}
