//! Which expressions may stand at a place.
ghost use Rattle.std.specs.Prelude.{◌≡◌};
ghost use Rattle.wesl_text_operands.specs.Classes.{class_view};
ghost use Rattle.wesl_text_read.specs.Within.{allows};

use wesl_text_operands::{Class, is_tight, operator_class, takes_right};
use wesl_tree_syntax::BinaryOperator;

/// Which expressions may stand at a place.
#[derive(Clone, Copy, Drop)]
pub enum Within {
    /// any
    Anything,
    /// what a unary operator takes
    Prefix,
    /// what this operator takes on its right
    Right(BinaryOperator),
}

impl Within {
    /// Whether an expression of a class may stand here.
    pub fn allows(self, class: Class) -> bool
        ensures { result ≡ allows self (class_view class) }
    {
        match self {
            Within::Anything => true,
            Within::Prefix => is_tight(class),
            Within::Right(operator) => takes_right(operator_class(operator), class),
        }
    }
}
