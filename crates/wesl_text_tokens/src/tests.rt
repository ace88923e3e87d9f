//! That texts have their tokens where memory is there, which no clause says.
use crate::token::Token;
use crate::tokens::read_tokens;

#[test]
fn counts_tokens_between_all_blanks(rt: HostRuntime) {
    let text =
        "Δ \t\n\u{b}\u{c}\r\u{85}\u{200e}\u{200f}\u{2028}\u{2029}<été // é\n, 0x1p3>>=/* /* */ */1.5f";
    let count = match read_tokens(rt.alloc(), text) {
        Ok(tokens) => tokens.len(),
        Err(_) => 0,
    };
    assert_eq!(rt; count, 8);
}

#[test]
fn tells_lists_from_comparisons(rt: HostRuntime) {
    let count = match read_tokens(rt.alloc(), "a<b<c>> + d < e") {
        Ok(tokens) => tokens
            .iter()
            .filter(|placed| matches!(placed.token, Token::OpenList))
            .count(),
        Err(_) => 0,
    };
    assert_eq!(rt; count, 2);
}
