//! Kinds of tokens, and which may stand side by side with nothing between them.
ghost use Rattle.std.specs.Prelude.{◌≡◌};
ghost use Rattle.wesl_text_tokens.specs.Symbols.{symbol_text};
ghost use Rattle.wesl_text_sink.specs.Touching.{first_of, is_run, last_of, may_touch, runs_on, sign_text};

use wesl_text_tokens::Symbol;

/// What a token is, without the text of a name or a number.
#[derive(Clone, Copy, Debug, Drop)]
pub enum Kind {
    /// a name or a keyword
    Name,
    /// a number
    Number,
    /// a symbol
    Symbol(Symbol),
    /// the bracket that opens a template list
    OpenList,
    /// the bracket that closes one
    CloseList,
}

/// A token in a text.
#[derive(Clone, Copy, Debug, Drop)]
pub struct Mark {
    /// what it is
    pub kind: Kind,
    /// the bytes before it
    pub start: usize,
    /// the bytes before its end
    pub end: usize,
}

/// Whether a token of one kind may stand right behind one of another: the two are read as they are then.
pub(crate) fn may_touch(left: Kind, right: Kind) -> bool
    ensures { result ≡ may_touch left right }
{
    match (left, right) {
        (Kind::Name | Kind::Number, Kind::Name | Kind::Number) => false,
        (Kind::Name, _) => true,
        (Kind::Number, _) => first_byte(right) != b'.',
        (_, Kind::Name) => true,
        (_, Kind::Number) => last_byte(left) != b'.',
        (Kind::CloseList, Kind::CloseList) => true,
        _ => !runs_on(last_byte(left), first_byte(right)),
    }
}

// Whether two signs begin a symbol or a comment where nothing stands between them.
fn runs_on(left: u8, right: u8) -> bool
    ensures { result ≡ runs_on left right }
{
    right == b'='
        || left == right && is_run(left)
        || left == b'-' && right == b'>'
        || left == b'/' && right == b'*'
}

// Whether a sign and the same sign again begin a symbol or a comment.
fn is_run(sign: u8) -> bool
    ensures { result ≡ is_run sign }
{
    match sign {
        b'&' | b'|' | b'+' | b'-' | b':' | b'<' | b'>' | b'/' => true,
        _ => false,
    }
}

// The first sign of a token; 0 for a name or a number.
fn first_byte(kind: Kind) -> u8
    ensures { result ≡ first_of (sign_text kind) }
{
    match sign_text(kind).as_bytes() {
        [first, ..] => *first,
        [] => 0,
    }
}

// The last sign of a token; 0 for a name or a number.
fn last_byte(kind: Kind) -> u8
    ensures { result ≡ last_of (sign_text kind) }
{
    match sign_text(kind).as_bytes() {
        [.., last] => *last,
        [] => 0,
    }
}

/// The text of a token; the empty one for a name or a number.
pub(crate) fn sign_text(kind: Kind) -> &'static str
    ensures { result.now ≡ sign_text kind }
{
    match kind {
        Kind::Name => "",
        Kind::Number => "",
        Kind::Symbol(symbol) => symbol_text(symbol),
        Kind::OpenList => "<",
        Kind::CloseList => ">",
    }
}

/// The text of a symbol (WGSL, "Tokens").
pub fn symbol_text(symbol: Symbol) -> &'static str
    ensures { result.now ≡ symbol_text symbol }
{
    match symbol {
        Symbol::ParenLeft => "(",
        Symbol::ParenRight => ")",
        Symbol::BracketLeft => "[",
        Symbol::BracketRight => "]",
        Symbol::BraceLeft => "{",
        Symbol::BraceRight => "}",
        Symbol::Less => "<",
        Symbol::Greater => ">",
        Symbol::At => "@",
        Symbol::Comma => ",",
        Symbol::Period => ".",
        Symbol::Semicolon => ";",
        Symbol::Colon => ":",
        Symbol::Equal => "=",
        Symbol::Plus => "+",
        Symbol::Minus => "-",
        Symbol::Star => "*",
        Symbol::Slash => "/",
        Symbol::Percent => "%",
        Symbol::And => "&",
        Symbol::Or => "|",
        Symbol::Xor => "^",
        Symbol::Bang => "!",
        Symbol::Tilde => "~",
        Symbol::ColonColon => "::",
        Symbol::Arrow => "->",
        Symbol::PlusPlus => "++",
        Symbol::MinusMinus => "--",
        Symbol::AndAnd => "&&",
        Symbol::OrOr => "||",
        Symbol::EqualEqual => "==",
        Symbol::NotEqual => "!=",
        Symbol::LessEqual => "<=",
        Symbol::GreaterEqual => ">=",
        Symbol::ShiftLeft => "<<",
        Symbol::ShiftRight => ">>",
        Symbol::PlusEqual => "+=",
        Symbol::MinusEqual => "-=",
        Symbol::StarEqual => "*=",
        Symbol::SlashEqual => "/=",
        Symbol::PercentEqual => "%=",
        Symbol::AndEqual => "&=",
        Symbol::OrEqual => "|=",
        Symbol::XorEqual => "^=",
        Symbol::ShiftLeftEqual => "<<=",
        Symbol::ShiftRightEqual => ">>=",
    }
}
