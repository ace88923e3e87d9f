//! Which operands stand without parentheses (WGSL, "Expression Grammar Summary").
ghost use Rattle.std.specs.Prelude.{◌≡◌, Some};
ghost use Rattle.wesl_text_form.specs.Operators.{class_of as class_in, is_tight as is_tight_class, operator_class as class_of_operator, primary, same_class, takes_left as takes_on_left, takes_right as takes_on_right};
ghost use Rattle.wesl_tree_syntax.specs.View.{expression_view};

use wesl_text_operands::{class_of, operator_class};
use wesl_tree_syntax::{BinaryOperator, Expression};

/// Whether an operation takes an operand on its left without parentheses.
pub(crate) fn takes_left(operator: BinaryOperator, operand: &Expression) -> bool
    ensures { result ≡ takes_on_left (class_of_operator operator) (class_in (Some (expression_view operand.now).label)) }
{
    wesl_text_operands::takes_left(operator_class(operator), class_of(operand))
}

/// Whether an operation takes an operand on its right without parentheses.
pub(crate) fn takes_right(operator: BinaryOperator, operand: &Expression) -> bool
    ensures { result ≡ takes_on_right (class_of_operator operator) (class_in (Some (expression_view operand.now).label)) }
{
    wesl_text_operands::takes_right(operator_class(operator), class_of(operand))
}

/// Whether an expression is no operation, or one of a unary operator.
pub(crate) fn is_tight(operand: &Expression) -> bool
    ensures { result ≡ is_tight_class (class_in (Some (expression_view operand.now).label)) }
{
    wesl_text_operands::is_tight(class_of(operand))
}

/// Whether an expression is no operation.
pub(crate) fn is_primary(operand: &Expression) -> bool
    ensures { result ≡ same_class primary (class_in (Some (expression_view operand.now).label)) }
{
    wesl_text_operands::is_primary(class_of(operand))
}
