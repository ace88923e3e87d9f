//! Where identifiers stand among the tokens of a text.
use wesl_scope_occurrences::Standing;
use wesl_text_tokens::{PlacedToken, Symbol, Token};
use wesl_tree::Span;

/// A walk over tokens that looks for identifiers, one behind the other.
#[derive(Drop)]
pub(crate) struct Finder<'f, 't> {
    tokens: &'f [PlacedToken<'t>],
    // the first token that is not behind the walk
    next: usize,
}

impl<'f, 't> Finder<'f, 't> {
    /// A walk that begins before all tokens.
    pub(crate) fn new(tokens: &'f [PlacedToken<'t>]) -> Finder<'f, 't> {
        Finder { tokens, next: 0 }
    }

    /// The byte with which an identifier begins whose innermost node has the span: that of the next name of its spelling there which
    /// may stand so.
    pub(crate) fn find(
        &mut self,
        span: Span,
        standing: &Standing<'_>,
        spelling: &str,
    ) -> Option<u32> {
        let tokens = self.tokens;
        let first = tokens.partition_point(|token| token.start < span.start);
        for index in self.next.max(first)..tokens.len() {
            let token = tokens[index];
            if token.start >= span.end {
                return None;
            }
            if is_name(token.token, spelling) && may_stand(tokens, index, span, standing) {
                self.next = index + 1;
                return Some(token.start);
            }
        }
        None
    }
}

// Whether a token is a name of a spelling.
fn is_name(token: Token<'_>, spelling: &str) -> bool {
    match token {
        Token::Name(name) => name == spelling,
        _ => false,
    }
}

// Whether the name at an index may stand so in a node, by the tokens beside it: names of attributes and members, words of attributes
// and modules of paths do not.
fn may_stand(
    tokens: &[PlacedToken<'_>],
    index: usize,
    span: Span,
    standing: &Standing<'_>,
) -> bool {
    let before = match index.checked_sub(1) {
        Some(before) => tokens.get(before),
        None => None,
    };
    let after = tokens.get(index.saturating_add(1));
    match standing {
        Standing::Parameter => is_symbol(after, Symbol::Colon),
        Standing::ModuleName | Standing::Local { end: _ } => is_word(before),
        Standing::Reference(_) | Standing::Word => {
            !is_symbol(before, Symbol::At)
                && !is_symbol(before, Symbol::Period)
                && (!is_symbol(after, Symbol::Colon) || is_last(tokens, index, span))
                && !is_symbol(after, Symbol::ColonColon)
        }
    }
}

// Whether a node ends with the token at an index, as a selector does before its colon.
fn is_last(tokens: &[PlacedToken<'_>], index: usize, span: Span) -> bool {
    match tokens.get(index) {
        Some(token) => token.end == span.end,
        None => false,
    }
}

// Whether a token is a symbol.
fn is_symbol(token: Option<&PlacedToken<'_>>, symbol: Symbol) -> bool {
    match token {
        Some(placed) => match placed.token {
            Token::Symbol(found) => found == symbol,
            _ => false,
        },
        None => false,
    }
}

// Whether a token is a keyword or a name, or the end of the template list of a `var`.
fn is_word(token: Option<&PlacedToken<'_>>) -> bool {
    match token {
        Some(placed) => match placed.token {
            Token::Name(_) | Token::CloseList => true,
            _ => false,
        },
        None => false,
    }
}
