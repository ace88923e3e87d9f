//! What tokens begin with.
ghost use Rattle.std.specs.Prelude.{◌≡◌, option_map};
ghost use Rattle.wesl_text_reading.specs.FirstTokens.{begins_sign, begins_word, begins_words};
ghost use Rattle.wesl_text_read.specs.First.{word_first};
ghost use Rattle.wesl_text_read_ahead.specs.Ahead.{tokens_of};

use wesl_text_tokens::{PlacedToken, Symbol, Token};

/// The word that comes first, if one does.
pub fn word_of<'t>(tokens: &[PlacedToken<'t>]) -> Option<&'t str>
    ensures { option_map (λ t. t.now) result ≡ word_first (tokens_of tokens.now) }
{
    match tokens {
        [first, ..] => match first.token {
            Token::Name(word) => Some(word),
            _ => None,
        },
        [] => None,
    }
}

/// Whether this word comes first.
pub fn word_begins(tokens: &[PlacedToken<'_>], word: &str) -> bool
    ensures { result ≡ begins_word word.now (tokens_of tokens.now) }
{
    match word_of(tokens) {
        Some(given) => word == given,
        None => false,
    }
}

/// Whether a word comes first, and then another.
pub fn words_begin(tokens: &[PlacedToken<'_>], first: &str, second: &str) -> bool
    ensures { result ≡ begins_words first.now second.now (tokens_of tokens.now) }
{
    match tokens {
        [_, rest @ ..] => word_begins(tokens, first) && word_begins(rest, second),
        [] => false,
    }
}

/// Whether this symbol comes first.
pub fn sign_begins(tokens: &[PlacedToken<'_>], sign: Symbol) -> bool
    ensures { result ≡ begins_sign sign (tokens_of tokens.now) }
{
    match tokens {
        [first, ..] => match first.token {
            Token::Symbol(given) => sign == given,
            _ => false,
        },
        [] => false,
    }
}
