//! Reading what declarations of variables begin with: `const`, `override`, `let`, `var` and the memory of a variable.
ghost use Rattle.std.specs.Prelude.{◌≡◌, IfSome, Some, option_map};
ghost use Rattle.wesl_tree_syntax.specs.View.{access_tree, kind_tree, optional as option_view, space_tree};
ghost use Rattle.wesl_text_tokens.specs.Symbols.{look_up};
ghost use Rattle.wesl_text_tokens.specs.declared.symbol.Symbol.TheVariants as symbols;
ghost use Rattle.wesl_text_form.specs.Operators.{access_word, space_word};
ghost use Rattle.wesl_text_form.specs.Productions.{a_kind, a_space, an_access, closes, may_sym, nothing, opens, own, sym};
ghost use Rattle.wesl_text_reading.specs.FirstTokens.{by_word, goes_on_behind, words_of_accesses, words_of_kinds, words_of_spaces};
ghost use Rattle.wesl_text_read.specs.First.{begins_next, word_first};
ghost use Rattle.wesl_text_read.specs.Leads.{Reads, ahead};
ghost use Rattle.wesl_text_read.specs.Levels.{inner};
ghost use Rattle.wesl_text_read.specs.Parts.{may_at};
ghost use Rattle.wesl_text_read_ahead.specs.Ahead.{tokens_of};
ghost use Rattle.wesl_text_read_simple.specs.Words.{kind_at, word_kind, word_text};

use wesl_text_read::{Expected, Reader};
use wesl_text_read_ahead::skip_open;
use wesl_text_tokens::{PlacedToken, Symbol, Token};
use wesl_tree_syntax::{AccessMode, AddressSpace, DeclarationKind};

// The words that declarations of variables begin with.
#[derive(Clone, Copy, Drop)]
enum KindWord {
    Const,
    Let,
    Override,
    Var,
}

// The word of a declaration that a text is, if it is one.
fn kind_word(word: &str) -> Option<KindWord>
    ensures kind { option_map word_kind result ≡ look_up word.now words_of_kinds }
    ensures text { IfSome result (λ w. word.now ≡ word_text w) }
{
    match word {
        "const" => Some(KindWord::Const),
        "let" => Some(KindWord::Let),
        "override" => Some(KindWord::Override),
        "var" => Some(KindWord::Var),
        _ => None,
    }
}

// The address space that a word is, if it is one.
fn space_of(word: &str) -> Option<AddressSpace>
    ensures space { result ≡ look_up word.now words_of_spaces }
    ensures text { IfSome result (λ s. word.now ≡ space_word s) }
{
    match word {
        "function" => Some(AddressSpace::Function),
        "handle" => Some(AddressSpace::Handle),
        "private" => Some(AddressSpace::Private),
        "storage" => Some(AddressSpace::Storage),
        "uniform" => Some(AddressSpace::Uniform),
        "workgroup" => Some(AddressSpace::Workgroup),
        _ => None,
    }
}

// The access mode that a word is, if it is one.
fn access_of(word: &str) -> Option<AccessMode>
    ensures access { result ≡ look_up word.now words_of_accesses }
    ensures text { IfSome result (λ a. word.now ≡ access_word a) }
{
    match word {
        "read" => Some(AccessMode::Read),
        "read_write" => Some(AccessMode::ReadWrite),
        "write" => Some(AccessMode::Write),
        _ => None,
    }
}

// The word of a declaration that comes first, if one does.
fn kind_first(reader: &Reader<'_>) -> Option<KindWord>
    ensures kind { option_map word_kind result ≡ by_word words_of_kinds (ahead reader.now) }
    ensures text { IfSome result (λ w. word_first (ahead reader.now) ≡ Some (word_text w)) }
{
    match reader.word_first() {
        Some(word) => kind_word(word),
        None => None,
    }
}

// The address space that comes first, if one does.
fn space_first(reader: &Reader<'_>) -> Option<AddressSpace>
    ensures space { result ≡ by_word words_of_spaces (ahead reader.now) }
    ensures text { IfSome result (λ s. word_first (ahead reader.now) ≡ Some (space_word s)) }
{
    match reader.word_first() {
        Some(word) => space_of(word),
        None => None,
    }
}

// The access mode that comes first, if one does.
fn access_first(reader: &Reader<'_>) -> Option<AccessMode>
    ensures access { result ≡ by_word words_of_accesses (ahead reader.now) }
    ensures text { IfSome result (λ a. word_first (ahead reader.now) ≡ Some (access_word a)) }
{
    match reader.word_first() {
        Some(word) => access_of(word),
        None => None,
    }
}

/// What a declaration declares, by its first word: with the memory of a variable, where that is told.
pub fn read_kind(reader: &mut Reader<'_>) -> DeclarationKind
    ensures { Reads (inner reader.old.levels a_kind) (kind_tree result) reader.old reader.new }
{
    match kind_first(reader) {
        Some(word) => {
            reader.step();
            kind_of(reader, word)
        }
        None => {
            reader.wrong(Expected::Declaration);
            DeclarationKind::Const
        }
    }
}

// What a declaration of this word declares, by what is behind the word.
fn kind_of(reader: &mut Reader<'_>, word: KindWord) -> DeclarationKind
    ensures { Reads (kind_at reader.old.levels (word_text word)) (kind_tree result) reader.old reader.new }
{
    match word {
        KindWord::Const => DeclarationKind::Const,
        KindWord::Let => DeclarationKind::Let,
        KindWord::Override => DeclarationKind::Override,
        KindWord::Var => DeclarationKind::Var(optional_memory(reader)),
    }
}

// An address space and an access mode in a template list, where one opens.
fn optional_memory(reader: &mut Reader<'_>) -> Option<(AddressSpace, Option<AccessMode>)>
    ensures { Reads (may_at reader.old.levels (opens (own a_space (may_sym symbols.Comma (closes nothing)))))
        (option_view space_tree result) reader.old reader.new }
{
    if !reader.opens_list() {
        return None;
    }
    skip_open(reader);
    let memory = read_space(reader);
    let _comma = reader.skip_comma();
    reader.skip_close();
    Some(memory)
}

// An address space, and an access mode behind it where one is told.
fn read_space(reader: &mut Reader<'_>) -> (AddressSpace, Option<AccessMode>)
    ensures { Reads (inner reader.old.levels a_space) (space_tree result) reader.old reader.new }
{
    match space_first(reader) {
        Some(space) => {
            reader.step();
            (space, optional_access(reader))
        }
        None => {
            reader.wrong(Expected::Name);
            (AddressSpace::Function, None)
        }
    }
}

// Whether a list goes on with these tokens, which stand behind a comma.
fn goes_on(tokens: &[PlacedToken<'_>]) -> bool
    ensures { result ≡ goes_on_behind (tokens_of tokens.now) }
{
    match tokens {
        [first, ..] => match first.token {
            Token::Symbol(Symbol::ParenRight) => false,
            Token::CloseList => false,
            _ => true,
        },
        [] => false,
    }
}

// Whether a comma comes first, and something behind it that is no end.
fn begins_next(reader: &Reader<'_>) -> bool
    ensures { result ≡ begins_next (ahead reader.now) }
{
    match reader.rest {
        [_, rest @ ..] => reader.begins_sign(Symbol::Comma) && goes_on(rest),
        [] => false,
    }
}

// A comma and an access mode, where they stand.
fn optional_access(reader: &mut Reader<'_>) -> Option<AccessMode>
    ensures { Reads (may_at reader.old.levels (sym symbols.Comma (own an_access nothing)))
        (option_view access_tree result) reader.old reader.new }
{
    if !begins_next(reader) {
        return None;
    }
    reader.skip_sign(Symbol::Comma);
    Some(read_access(reader))
}

// An access mode.
fn read_access(reader: &mut Reader<'_>) -> AccessMode
    ensures { Reads (inner reader.old.levels an_access) (access_tree result) reader.old reader.new }
{
    match access_first(reader) {
        Some(access) => {
            reader.step();
            access
        }
        None => {
            reader.wrong(Expected::Name);
            AccessMode::Read
        }
    }
}
