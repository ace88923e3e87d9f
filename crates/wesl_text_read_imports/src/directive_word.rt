//! The words of directives.
ghost use Rattle.std.specs.Prelude.{◌≡◌, IfSome, option_map};
ghost use Rattle.wesl_text_tokens.specs.Symbols.{look_up};
ghost use Rattle.wesl_text_form.specs.Productions.{a_directive};
ghost use Rattle.wesl_text_reading.specs.FirstTokens.{begins_sort, by_word, words_of_directives};
ghost use Rattle.wesl_text_read_ahead.specs.Ahead.{tokens_of};
ghost use Rattle.wesl_text_read_imports.specs.Directives.{directive_kind};

use wesl_text_read_ahead::word_of;
use wesl_text_tokens::PlacedToken;

/// The words that directives begin with.
#[derive(Clone, Copy, Drop)]
pub enum DirectiveWord {
    Diagnostic,
    Enable,
    Requires,
}

// The directive that a word begins, if it begins one.
fn directive_of(word: &str) -> Option<DirectiveWord>
    ensures { option_map directive_kind result ≡ look_up word.now words_of_directives }
{
    match word {
        "diagnostic" => Some(DirectiveWord::Diagnostic),
        "enable" => Some(DirectiveWord::Enable),
        "requires" => Some(DirectiveWord::Requires),
        _ => None,
    }
}

/// The directive that begins with these tokens, if one does.
pub fn directive_word(tokens: &[PlacedToken<'_>]) -> Option<DirectiveWord>
    ensures { option_map directive_kind result ≡ by_word words_of_directives (tokens_of tokens.now) }
{
    match word_of(tokens) {
        Some(word) => directive_of(word),
        None => None,
    }
}

/// Whether a directive begins with these tokens.
pub fn begins_directive(tokens: &[PlacedToken<'_>]) -> bool
    ensures { result ≡ begins_sort a_directive (tokens_of tokens.now) }
{
    directive_word(tokens).is_some()
}
