//! Which texts are words, names and numbers (WGSL, "Identifiers", "Literals").
ghost use Rattle.std.specs.Prelude.{◌≡◌, IfOk, Some, map};
ghost use Rattle.wesl_tree_base.specs.Borrowed.{texts};
ghost use Rattle.wesl_tree_base.specs.Pieces.{cut, slash};
ghost use Rattle.wesl_text_form.specs.Spelling.{dot};
ghost use Rattle.wesl_text_form.specs.Names.{is_alone, is_name, is_number, is_word};
ghost use Rattle.wesl_text_tokens.specs.Tokens.{name as name_token, number as number_token};
ghost use Rattle.wesl_text_tokens.specs.Reading.{IsFaultOf};
ghost use Rattle.wesl_text_tokens.specs.Views.{token_of};
ghost use Rattle.wesl_tree_names.specs.Path.{Text};
ghost use Rattle.std.specs.List.{list_all};
ghost use Rattle.wesl_text_sink.specs.Words.{Tells, begins_plain, is_plain, is_plain_name};

use crate::fault::PrintFault;
use std::alloc::{AllocError, Global};
use wesl_text_read::is_free;
use wesl_text_tokens::{PlacedToken, Token, TokenFault, read_tokens};

/// Whether a text is one word.
pub(crate) fn is_word(alloc: Global, text: &str) -> Result<bool, PrintFault>
    ensures { Tells result (is_word text.now) }
{
    if is_plain_name(text.as_bytes()) {
        return Ok(true);
    }
    match read_tokens(alloc, text) {
        Ok(tokens) => Ok(is_name_alone(tokens.as_slice(), text)),
        Err(fault) => without_tokens(fault),
    }
}

/// Whether a text is one word that may be declared and used as a name.
pub(crate) fn is_name(alloc: Global, text: &str) -> Result<bool, PrintFault>
    ensures { Tells result (is_name text.now) }
{
    if is_free(text) {
        is_word(alloc, text)
    } else {
        Ok(false)
    }
}

/// Whether a text is one number.
pub(crate) fn is_number(alloc: Global, text: &str) -> Result<bool, PrintFault>
    ensures { Tells result (is_number text.now) }
{
    match read_tokens(alloc, text) {
        Ok(tokens) => Ok(is_number_alone(tokens.as_slice(), text)),
        Err(fault) => without_tokens(fault),
    }
}

/// The parts of a text between its slashes.
pub(crate) fn between_slashes(alloc: Global, text: &str) -> Result<Vec<&str>, AllocError>
    ensures { IfOk result (λ parts. texts parts.items ≡ cut slash text.now) }
{
    text.split('/').collect(alloc)
}

/// The parts of a text between its dots.
pub(crate) fn between_dots(alloc: Global, text: &str) -> Result<Vec<&str>, AllocError>
    ensures { IfOk result (λ parts. texts parts.items ≡ cut dot text.now) }
{
    text.split('.').collect(alloc)
}

// Whether a text is a name of ASCII, which needs no memory to tell.
fn is_plain_name(text: &[u8]) -> bool
    ensures { result ≡ is_plain_name text.now }
{
    match text {
        [first, others @ ..] => begins_plain(*first) && are_plain(others),
        [] => false,
    }
}

// Whether a name of ASCII goes on with each of these.
fn are_plain(bytes: &[u8]) -> bool
    ensures { result ≡ list_all is_plain bytes.now }
{
    for byte in bytes {
        if !is_plain(*byte) {
            return false;
        }
    }
    true
}

// Whether a name of ASCII goes on with a character.
fn is_plain(byte: u8) -> bool
    ensures { result ≡ is_plain byte }
{
    begins_plain(byte) || b'0' <= byte && byte <= b'9'
}

// Whether a name of ASCII begins with a character.
fn begins_plain(byte: u8) -> bool
    ensures { result ≡ begins_plain byte }
{
    byte == b'_' || b'a' <= byte && byte <= b'z' || b'A' <= byte && byte <= b'Z'
}

// What is said of a text that has no tokens: it is neither a word nor a number, unless a limit was met.
fn without_tokens(fault: TokenFault) -> Result<bool, PrintFault>
    ensures word { (t : Text) → IsFaultOf t fault → Tells result (is_word t) }
    ensures number { (t : Text) → IsFaultOf t fault → Tells result (is_number t) }
{
    match fault {
        TokenFault::TooLong => Err(PrintFault::TooLong),
        TokenFault::Memory => Err(PrintFault::Memory),
        _ => Ok(false),
    }
}

// Whether the only token is the name that the text is.
fn is_name_alone(tokens: &[PlacedToken<'_>], text: &str) -> bool
    ensures { result ≡ is_alone (name_token text.now) (Some (map (λ p. token_of p.token) tokens.now)) }
{
    match tokens {
        [only] => match only.token {
            Token::Name(name) => text == name,
            _ => false,
        },
        _ => false,
    }
}

// Whether the only token is the number that the text is.
fn is_number_alone(tokens: &[PlacedToken<'_>], text: &str) -> bool
    ensures { result ≡ is_alone (number_token text.now) (Some (map (λ p. token_of p.token) tokens.now)) }
{
    match tokens {
        [only] => match only.token {
            Token::Number(number) => text == number,
            _ => false,
        },
        _ => false,
    }
}
