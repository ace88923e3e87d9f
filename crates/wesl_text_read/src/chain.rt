//! What goes on behind an expression, and what comes before an operand.
ghost use Rattle.std.specs.Prelude.{◌≡◌};
ghost use Rattle.wesl_text_reading.specs.FirstTokens.{binary_first, unary_first};
ghost use Rattle.wesl_text_reading.specs.Reading.{begins_post, next_operator};
ghost use Rattle.wesl_text_operands.specs.Classes.{class_view};
ghost use Rattle.wesl_text_read.specs.First.{sign_first};
ghost use Rattle.wesl_text_read.specs.Leads.{ahead};
ghost use Rattle.wesl_text_read.specs.Within.{allows};

use crate::operators::{binary_operator, unary_operator};
use crate::reader::Reader;
use crate::within::Within;
use wesl_text_operands::{Class, operator_class, takes_left};
use wesl_text_tokens::Symbol;
use wesl_tree_syntax::{BinaryOperator, UnaryOperator};

impl<'t> Reader<'t> {
    /// The unary operator that comes first, if one does.
    pub fn unary_first(&self) -> Option<UnaryOperator>
        ensures { result ≡ unary_first (ahead self.now) }
    {
        match self.sign_first() {
            Some(sign) => unary_operator(sign),
            None => None,
        }
    }

    /// The binary operator that comes first, if one does.
    pub fn binary_first(&self) -> Option<BinaryOperator>
        ensures { result ≡ binary_first (ahead self.now) }
    {
        match self.sign_first() {
            Some(sign) => binary_operator(sign),
            None => None,
        }
    }

    /// Whether `.` or `[` comes first.
    pub fn begins_post(&self) -> bool
        ensures { result ≡ begins_post (ahead self.now) }
    {
        self.begins_sign(Symbol::Period) || self.begins_sign(Symbol::BracketLeft)
    }

    /// The operator that goes on behind an expression of a class, where the whole may stand within these.
    pub fn next_operator(&self, within: Within, left: Class) -> Option<BinaryOperator>
        ensures { result ≡ next_operator (allows within) (class_view left) (ahead self.now) }
    {
        match self.binary_first() {
            Some(operator) => {
                let class = operator_class(operator);
                if within.allows(class) && takes_left(class, left) {
                    Some(operator)
                } else {
                    None
                }
            }
            None => None,
        }
    }
}
