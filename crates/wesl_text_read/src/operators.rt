//! The operators that symbols are.
ghost use Rattle.std.specs.Prelude.{◌≡◌};
ghost use Rattle.wesl_text_reading.specs.FirstTokens.{binary_of, unary_of};

use wesl_text_tokens::Symbol;
use wesl_tree_syntax::{BinaryOperator, UnaryOperator};

/// The binary operator that a symbol is, if it is one.
pub fn binary_operator(symbol: Symbol) -> Option<BinaryOperator>
    ensures { result ≡ binary_of symbol }
{
    match symbol {
        Symbol::OrOr => Some(BinaryOperator::ShortCircuitOr),
        Symbol::AndAnd => Some(BinaryOperator::ShortCircuitAnd),
        Symbol::Plus => Some(BinaryOperator::Addition),
        Symbol::Minus => Some(BinaryOperator::Subtraction),
        Symbol::Star => Some(BinaryOperator::Multiplication),
        Symbol::Slash => Some(BinaryOperator::Division),
        Symbol::Percent => Some(BinaryOperator::Remainder),
        Symbol::EqualEqual => Some(BinaryOperator::Equality),
        Symbol::NotEqual => Some(BinaryOperator::Inequality),
        Symbol::Less => Some(BinaryOperator::LessThan),
        Symbol::LessEqual => Some(BinaryOperator::LessThanEqual),
        Symbol::Greater => Some(BinaryOperator::GreaterThan),
        Symbol::GreaterEqual => Some(BinaryOperator::GreaterThanEqual),
        Symbol::Or => Some(BinaryOperator::BitwiseOr),
        Symbol::And => Some(BinaryOperator::BitwiseAnd),
        Symbol::Xor => Some(BinaryOperator::BitwiseXor),
        Symbol::ShiftLeft => Some(BinaryOperator::ShiftLeft),
        Symbol::ShiftRight => Some(BinaryOperator::ShiftRight),
        _ => None,
    }
}

/// The unary operator that a symbol is, if it is one.
pub fn unary_operator(symbol: Symbol) -> Option<UnaryOperator>
    ensures { result ≡ unary_of symbol }
{
    match symbol {
        Symbol::Bang => Some(UnaryOperator::LogicalNegation),
        Symbol::Minus => Some(UnaryOperator::Negation),
        Symbol::Tilde => Some(UnaryOperator::BitwiseComplement),
        Symbol::And => Some(UnaryOperator::AddressOf),
        Symbol::Star => Some(UnaryOperator::Indirection),
        _ => None,
    }
}
