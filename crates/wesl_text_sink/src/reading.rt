//! Whether a text is read as the tokens that it was made of.
ghost use Rattle.std.specs.Prelude.{◌≡◌, ◌-◌, drop, map, take};
ghost use Rattle.wesl_text_form.specs.Says.{same_tokens};
ghost use Rattle.wesl_text_form.specs.Slots.{same_token};
ghost use Rattle.wesl_text_tokens.specs.Views.{token_of};
ghost use Rattle.wesl_text_sink.specs.Finished.{is_read_as, token_at, tokens_at};
ghost use Rattle.wesl_text_sink.specs.Words.{Tells};

use crate::fault::PrintFault;
use crate::kind::{Kind, Mark};
use std::alloc::Global;
use wesl_text_tokens::{PlacedToken, Token, TokenFault, read_tokens};

/// Whether the tokens of a text are those that are marked in it.
pub(crate) fn is_read_as(alloc: Global, text: &str, marks: &[Mark]) -> Result<bool, PrintFault>
    ensures { Tells result (is_read_as text.now marks.now) }
{
    match read_tokens(alloc, text) {
        Ok(tokens) => Ok(are_marked(text, tokens.as_slice(), marks)),
        Err(TokenFault::TooLong) => Err(PrintFault::TooLong),
        Err(TokenFault::Memory) => Err(PrintFault::Memory),
        Err(_) => Ok(false),
    }
}

// Whether tokens are those that are marked in a text.
fn are_marked(text: &str, tokens: &[PlacedToken<'_>], marks: &[Mark]) -> bool
    ensures { result ≡ same_tokens (map (λ p. token_of p.token) tokens.now) (tokens_at text.now marks.now) }
{
    if tokens.len() != marks.len() {
        return false;
    }
    for index in 0..tokens.len() {
        if !is_marked(text, tokens[index].token, marks[index]) {
            return false;
        }
    }
    true
}

// Whether a token is the one that is marked.
fn is_marked(text: &str, token: Token<'_>, mark: Mark) -> bool
    ensures { result ≡ same_token (token_of token.entry) (token_at text.now mark) }
{
    match (token, mark.kind) {
        (Token::Name(name), Kind::Name) => name.as_bytes() == part(text, mark.start, mark.end),
        (Token::Number(number), Kind::Number) => {
            number.as_bytes() == part(text, mark.start, mark.end)
        }
        (Token::Symbol(read), Kind::Symbol(given)) => read == given,
        (Token::OpenList, Kind::OpenList) => true,
        (Token::CloseList, Kind::CloseList) => true,
        _ => false,
    }
}

// The bytes of a text from one place to another, as far as there are any.
fn part(text: &str, start: usize, end: usize) -> &[u8]
    ensures { result.now ≡ take (end - start) (drop start text.now) }
{
    let bytes = text.as_bytes();
    let end = end.min(bytes.len());
    let start = start.min(end);
    &bytes[start..end]
}
