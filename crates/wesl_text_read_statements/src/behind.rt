//! What stands behind attributes, and the braces of blocks.
ghost use Rattle.std.specs.Prelude.{◌≡◌};
ghost use Rattle.wesl_text_tokens.specs.Tokens.{symbol};
ghost use Rattle.wesl_text_tokens.specs.declared.symbol.Symbol.TheVariants as symbols;
ghost use Rattle.wesl_text_form.specs.Slots.{behind_token};
ghost use Rattle.wesl_text_form.specs.Productions.{a_break_if, a_clause, a_continuing, a_statement, an_else, an_else_if};
ghost use Rattle.wesl_text_reading.specs.FirstTokens.{begins_part, ends_block};
ghost use Rattle.wesl_text_read.specs.Leads.{Skips, ahead};
ghost use Rattle.wesl_text_read_ahead.specs.Ahead.{tokens_of};
ghost use Rattle.wesl_text_read_statements.specs.Statements.{Foresees, TellsBehind, is_text_fault};

use wesl_text_read::{Expected, Fault, Reader};
use wesl_text_read_ahead::{sign_begins, word_begins, words_begin};
use wesl_text_tokens::{PlacedToken, Symbol};

/// The tokens behind the attributes that come first, which are still to be read; none where these are no attributes.
pub fn peek_behind<'t>(reader: &mut Reader<'t>) -> &'t [PlacedToken<'t>]
    ensures { TellsBehind (tokens_of result.now) reader.old reader.new }
{
    if !reader.begins_sign(Symbol::At) {
        return reader.rest;
    }
    let start = reader.rest;
    let finish = reader.finish;
    let was_clear = reader.fault.is_none();
    let _attributes = reader.attributes();
    let behind = reader.rest;
    reader.rest = start;
    reader.finish = finish;
    if was_clear && has_text_fault(reader) {
        reader.fault = None;
        return &[];
    }
    behind
}

// Whether a fault of the text is noted.
fn has_text_fault(reader: &Reader<'_>) -> bool
    ensures { result ≡ is_text_fault reader.now.fault }
{
    match reader.fault {
        Some(
            Fault::Text {
                place: _,
                expected: _,
                found: _,
            },
        ) => true,
        _ => false,
    }
}

// Whether the statements of a block end, by the tokens behind attributes.
fn ends_block(tokens: &[PlacedToken<'_>]) -> bool
    ensures { result ≡ ends_block (tokens_of tokens.now) }
{
    tokens.is_empty()
        || sign_begins(tokens, Symbol::BraceRight)
        || word_begins(tokens, "continuing")
        || words_begin(tokens, "break", "if")
}

/// Whether a statement begins.
pub fn begins_statement(reader: &mut Reader<'_>) -> bool
    ensures { Foresees a_statement result reader.old reader.new }
{
    let behind = peek_behind(reader);
    !ends_block(behind)
}

/// Whether `else if` comes first.
pub fn begins_else_if(reader: &mut Reader<'_>) -> bool
    ensures { Foresees an_else_if result reader.old reader.new }
{
    let behind = peek_behind(reader);
    words_begin(behind, "else", "if")
}

/// Whether `else` comes first.
pub fn begins_else(reader: &mut Reader<'_>) -> bool
    ensures { Foresees an_else result reader.old reader.new }
{
    let behind = peek_behind(reader);
    word_begins(behind, "else")
}

/// Whether a clause of a `switch` begins.
pub fn begins_clause(reader: &mut Reader<'_>) -> bool
    ensures { Foresees a_clause result reader.old reader.new }
{
    let behind = peek_behind(reader);
    word_begins(behind, "case") || word_begins(behind, "default")
}

/// Whether `continuing` comes first.
pub fn begins_continuing(reader: &mut Reader<'_>) -> bool
    ensures { Foresees a_continuing result reader.old reader.new }
{
    let behind = peek_behind(reader);
    word_begins(behind, "continuing")
}

/// Whether `break if` comes first.
pub fn begins_break_if(reader: &mut Reader<'_>) -> bool
    ensures { Foresees a_break_if result reader.old reader.new }
{
    let behind = peek_behind(reader);
    words_begin(behind, "break", "if")
}

/// Whether a part of `for` begins: `;` and `)` end one.
pub fn begins_part(reader: &Reader<'_>) -> bool
    ensures { result ≡ begins_part (ahead reader.now) }
{
    !(reader.begins_sign(Symbol::Semicolon) || reader.begins_sign(Symbol::ParenRight))
}

/// Goes on behind `}`, which must come first. What is wrong with attributes that come first is noted.
pub fn close_block(reader: &mut Reader<'_>)
    ensures { Skips (behind_token (symbol symbols.BraceRight)) reader.old reader.new }
{
    if reader.begins_sign(Symbol::At) {
        let _attributes = reader.attributes();
        reader.wrong(Expected::Statement);
    } else {
        reader.skip_sign(Symbol::BraceRight);
    }
}
