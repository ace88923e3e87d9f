//! What lists of expressions go on with.
ghost use Rattle.std.specs.Prelude.{◌≡◌};
ghost use Rattle.wesl_text_reading.specs.FirstTokens.{begins_expression};
ghost use Rattle.wesl_text_read.specs.First.{next_expression};
ghost use Rattle.wesl_text_read.specs.Leads.{Tells, ahead};

use crate::reader::Reader;
use wesl_text_tokens::{Symbol, Token};

impl<'t> Reader<'t> {
    /// Whether an expression begins: a word, a number, `(` or a unary operator.
    pub fn begins_expression(&self) -> bool
        ensures { result ≡ begins_expression (ahead self.now) }
    {
        match self.rest {
            [first, ..] => match first.token {
                Token::Name(_) => true,
                Token::Number(_) => true,
                _ => self.begins_sign(Symbol::ParenLeft) || self.unary_first().is_some(),
            },
            [] => false,
        }
    }

    /// Goes on behind a comma, where one stands behind an expression of a list. Whether another expression follows.
    pub fn next_expression(&mut self) -> bool
        ensures { Tells next_expression result self.old self.new }
    {
        if !self.begins_sign(Symbol::Comma) {
            return false;
        }
        self.step();
        self.begins_expression()
    }
}
