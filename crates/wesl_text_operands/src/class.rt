//! How tightly expressions hold together (WGSL, "Expression Grammar Summary").
ghost use Rattle.std.specs.Prelude.{◌≡◌, Some};
ghost use Rattle.wesl_text_form.specs.Operators.{class_of as spelled_class, is_compared as compared, is_tight as tight, operator_class as class_of_operator, primary, same_class, takes_left as left_taken, takes_right as right_taken};
ghost use Rattle.wesl_tree_syntax.specs.View.{expression_view};
ghost use Rattle.wesl_text_operands.specs.Classes.{class_view};

use wesl_tree_syntax::{BinaryOperator, Expression};

/// How tightly an expression holds together.
#[derive(Clone, Copy, Drop)]
pub enum Class {
    /// what stands for itself
    Primary,
    /// a unary operator and its operand
    Prefixed,
    /// `*`, `/`, `%`
    Product,
    /// `+`, `-`
    Sum,
    /// `<<`, `>>`
    Shift,
    /// `==`, `!=`, `<`, `<=`, `>`, `>=`
    Comparison,
    /// `&`
    BitAnd,
    /// `|`
    BitOr,
    /// `^`
    BitXor,
    /// `&&`
    Both,
    /// `||`
    Either,
}

/// The class of an operation.
pub fn operator_class(operator: BinaryOperator) -> Class
    ensures { class_view result ≡ class_of_operator operator }
{
    match operator {
        BinaryOperator::ShortCircuitOr => Class::Either,
        BinaryOperator::ShortCircuitAnd => Class::Both,
        BinaryOperator::Addition | BinaryOperator::Subtraction => Class::Sum,
        BinaryOperator::Multiplication | BinaryOperator::Division | BinaryOperator::Remainder =>
            Class::Product,
        BinaryOperator::Equality
        | BinaryOperator::Inequality
        | BinaryOperator::LessThan
        | BinaryOperator::LessThanEqual
        | BinaryOperator::GreaterThan
        | BinaryOperator::GreaterThanEqual => Class::Comparison,
        BinaryOperator::BitwiseOr => Class::BitOr,
        BinaryOperator::BitwiseAnd => Class::BitAnd,
        BinaryOperator::BitwiseXor => Class::BitXor,
        BinaryOperator::ShiftLeft | BinaryOperator::ShiftRight => Class::Shift,
    }
}

/// The class of an expression.
pub fn class_of(expression: &Expression) -> Class
    ensures { class_view result ≡ spelled_class (Some (expression_view expression.now).label) }
{
    match expression {
        Expression::Unary { .. } => Class::Prefixed,
        Expression::Binary { operator, .. } => operator_class(*operator),
        Expression::Literal(_) => Class::Primary,
        Expression::Parenthesized { .. } => Class::Primary,
        Expression::NamedComponent { .. } => Class::Primary,
        Expression::Indexing { .. } => Class::Primary,
        Expression::FunctionCall(_) => Class::Primary,
        Expression::TypeOrIdentifier(_) => Class::Primary,
    }
}

/// Whether it stands for itself.
pub fn is_primary(class: Class) -> bool
    ensures { result ≡ same_class primary (class_view class) }
{
    match class {
        Class::Primary => true,
        _ => false,
    }
}

/// Whether it is primary, or stands behind a unary operator.
pub fn is_tight(class: Class) -> bool
    ensures { result ≡ tight (class_view class) }
{
    match class {
        Class::Primary | Class::Prefixed => true,
        _ => false,
    }
}

/// Whether it may be compared.
pub fn is_compared(class: Class) -> bool
    ensures { result ≡ compared (class_view class) }
{
    match class {
        Class::Product | Class::Sum | Class::Shift => true,
        _ => is_tight(class),
    }
}

/// Whether an operation of a class takes such an operand on its left.
pub fn takes_left(operation: Class, operand: Class) -> bool
    ensures { result ≡ left_taken (class_view operation) (class_view operand) }
{
    match (operation, operand) {
        (Class::Product, Class::Product) => true,
        (Class::Sum, Class::Product | Class::Sum) => true,
        (Class::Comparison, operand) => is_compared(operand),
        (Class::Both, Class::Comparison | Class::Both) => true,
        (Class::Either, Class::Comparison | Class::Either) => true,
        (Class::Both | Class::Either, operand) => is_compared(operand),
        (Class::BitAnd, Class::BitAnd) => true,
        (Class::BitOr, Class::BitOr) => true,
        (Class::BitXor, Class::BitXor) => true,
        (_, operand) => is_tight(operand),
    }
}

/// Whether an operation of a class takes such an operand on its right.
pub fn takes_right(operation: Class, operand: Class) -> bool
    ensures { result ≡ right_taken (class_view operation) (class_view operand) }
{
    match (operation, operand) {
        (Class::Sum, Class::Product) => true,
        (Class::Comparison, operand) => is_compared(operand),
        (Class::Both | Class::Either, Class::Comparison) => true,
        (Class::Both | Class::Either, operand) => is_compared(operand),
        (_, operand) => is_tight(operand),
    }
}
