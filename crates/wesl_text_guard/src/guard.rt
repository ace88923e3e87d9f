//! What puts parentheses, and how an expression gets them.
ghost use Rattle.std.specs.Box.{box_value};
ghost use Rattle.std.specs.Prelude.{◌≡◌, ◌&&◌, OnOk, Some, false, true};
ghost use Rattle.wesl_text_guard.specs.Enclosing.{enclosed_tree};
ghost use Rattle.wesl_text_guard.specs.Parentheses.{is_angled, is_angled_operation, stands_listed};
ghost use Rattle.wesl_tree_syntax.specs.View.{expression_tree, expression_view};

use std::alloc::{AllocError, Global};
use std::mem;
use wesl_tree_syntax::{BinaryOperator, Expression, ExpressionNode, Literal, Spanned};

/// Puts the parentheses in nodes that a text needs. Want of memory is noted: no more parentheses are put then, and the end
/// tells it.
#[derive(Drop)]
pub struct Guard {
    /// where parentheses are made
    pub alloc: Global,
    /// whether operations with a `<` or `>` in them get parentheses too where these could be read as brackets of a template list
    pub comparisons: bool,
    /// whether memory was wanting
    pub is_refused: bool,
}

/// Whether an operation has a sign `<` or `>` in it, or may join such operations.
fn is_angled(operator: BinaryOperator) -> bool
    ensures { result ≡ is_angled operator }
{
    match operator {
        BinaryOperator::LessThan
        | BinaryOperator::LessThanEqual
        | BinaryOperator::GreaterThan
        | BinaryOperator::GreaterThanEqual
        | BinaryOperator::ShiftLeft
        | BinaryOperator::ShiftRight
        | BinaryOperator::ShortCircuitAnd
        | BinaryOperator::ShortCircuitOr => true,
        _ => false,
    }
}

/// Whether an expression is such an operation.
fn is_angled_operation(expression: &Expression) -> bool
    ensures { result ≡ is_angled_operation (Some (expression_view expression.now).label) }
{
    match expression {
        Expression::Binary { operator, .. } => is_angled(*operator),
        Expression::Unary { .. } => false,
        Expression::Literal(_) => false,
        Expression::Parenthesized { .. } => false,
        Expression::NamedComponent { .. } => false,
        Expression::Indexing { .. } => false,
        Expression::FunctionCall(_) => false,
        Expression::TypeOrIdentifier(_) => false,
    }
}

impl Guard {
    ghost use Rattle.wesl_text_guard.specs.Enclosing.{Encloses};

    /// Puts parentheses round operands that their operations do not take without; with `comparisons` also round operations with a
    /// `<` or `>` in them that are an operand, an index, a selector, or stand in a list.
    pub fn new(alloc: Global, comparisons: bool) -> Guard
        ensures comparisons { result.comparisons ≡ comparisons }
    {
        Guard {
            alloc,
            comparisons,
            is_refused: false,
        }
    }

    /// Whether all parentheses were put. Refused for want of memory alone.
    pub fn end(self) -> Result<(), AllocError>
        ensures { OnOk result (self.is_refused ≡ false) }
    {
        if self.is_refused {
            Err(AllocError)
        } else {
            Ok(())
        }
    }

    // Whether an expression stands without parentheses where its class is taken or not.
    pub(crate) fn stands(&self, expression: &Expression, is_taken: bool) -> bool
        ensures { result ≡ (is_taken && stands_listed self.now.comparisons (Some (expression_view expression.now).label)) }
    {
        is_taken && !(self.comparisons && is_angled_operation(expression))
    }

    // Puts parentheses round an expression, unless it stands without.
    pub(crate) fn fit(&mut self, node: &mut ExpressionNode, stands: bool)
        ensures stays { stands ≡ true → (self.new ≡ self.old) × (node.new ≡ node.old) }
        ensures encloses { stands ≡ false → Encloses self.old self.new node.old node.new }
    {
        if !stands {
            self.enclose(node);
        }
    }

    // Puts parentheses round an expression, unless memory is or was wanting.
    fn enclose(&mut self, node: &mut ExpressionNode)
        ensures { Encloses self.old self.new node.old node.new }
    {
        if !self.is_refused {
            let hole = Spanned {
                node: Expression::Literal(Literal::Bool(false)),
                span: node.span,
            };
            match Box::new(self.alloc, hole) {
                Ok(inner) => put_in_parentheses(inner, node),
                Err(_) => self.is_refused = true,
            }
        }
    }
}

// Puts an expression into a box, where it has the same span, and the box, in parentheses, into its place.
fn put_in_parentheses(mut inner: Box<ExpressionNode>, node: &mut ExpressionNode)
    requires span { (box_value inner).span ≡ node.old.span }
    ensures { expression_tree node.new ≡ enclosed_tree (expression_tree node.old) }
{
    mem::swap(&mut inner.node, &mut node.node);
    node.node = Expression::Parenthesized { expression: inner };
}
