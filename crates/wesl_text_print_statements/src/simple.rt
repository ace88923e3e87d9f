//! Printing the statements that may stand in a `for`, without their `;` (WGSL, "Assignment Statement", "For Statement").
ghost use Rattle.std.specs.Prelude.{◌≡◌};
ghost use Rattle.wesl_text_form.specs.Operators.{assignment_symbol};
ghost use Rattle.wesl_text_print.specs.Printing.{Prints};
ghost use Rattle.wesl_text_print_statements.specs.SimpleStatements.{assigned_slots, simple_slots, stepped_slots, target_slots, unended_assignment};
ghost use Rattle.wesl_tree_syntax.specs.declared.statement.AssignmentOperator.TheVariants as operators;

use crate::attribute::print_attributes;
use crate::variable::print_local;
use crate::wildcard::is_wildcard;
use wesl_text_operands::{are_apart, is_target};
use wesl_text_print::{TokenSink, Unwritable, print_call, print_expression};
use wesl_text_tokens::Symbol;
use wesl_tree_names::Names;
use wesl_tree_syntax::{AssignmentOperator, Attributes, Expression, ExpressionNode, Statement};

/// Prints a statement that may stand in a `for`, without its `;`.
pub(crate) fn print_simple<S: TokenSink>(out: &mut S, names: &Names, statement: &Statement)
    ensures { Prints S.after out.old out.new (simple_slots names.now statement.now) }
{
    match statement {
        Statement::Assignment {
            attributes,
            operator,
            lhs,
            rhs,
        } => print_assignment(out, names, attributes, *operator, lhs, rhs),
        Statement::Increment {
            attributes,
            expression,
        } => print_step(out, names, attributes, expression, Symbol::PlusPlus),
        Statement::Decrement {
            attributes,
            expression,
        } => print_step(out, names, attributes, expression, Symbol::MinusMinus),
        Statement::FunctionCall { attributes, call } => {
            print_attributes(out, names, attributes);
            print_call(out, names, call);
        }
        Statement::Declaration(declaration) => print_local(out, names, declaration),
        Statement::Void
        | Statement::Compound(_)
        | Statement::If { .. }
        | Statement::Switch { .. }
        | Statement::Loop { .. }
        | Statement::For { .. }
        | Statement::While { .. }
        | Statement::Break { .. }
        | Statement::Continue { .. }
        | Statement::Return { .. }
        | Statement::Discard { .. }
        | Statement::ConstAssert(_) => out.refuse(Unwritable::ForPart),
    }
}

// Prints an assignment without its `;`.
fn print_assignment<S: TokenSink>(
    out: &mut S,
    names: &Names,
    attributes: &Attributes,
    operator: AssignmentOperator,
    lhs: &ExpressionNode,
    rhs: &ExpressionNode,
)
    ensures { Prints S.after out.old out.new (unended_assignment names.now attributes.now operator lhs.now rhs.now) }
{
    if are_apart(attributes, &lhs.node) {
        print_attributes(out, names, attributes);
        print_assigned(out, names, operator, &lhs.node);
        out.space();
        out.symbol(assignment_symbol(operator));
        out.space();
        print_expression(out, names, &rhs.node);
    } else {
        out.refuse(Unwritable::OpenAttribute);
    }
}

// Prints what an assignment assigns to: for `=` also `_`.
fn print_assigned<S: TokenSink>(
    out: &mut S,
    names: &Names,
    operator: AssignmentOperator,
    target: &Expression,
)
    ensures { Prints S.after out.old out.new (assigned_slots names.now operator target.now) }
{
    match operator {
        AssignmentOperator::Equal => print_target_or_wildcard(out, names, target),
        AssignmentOperator::PlusEqual => print_target(out, names, target),
        AssignmentOperator::MinusEqual => print_target(out, names, target),
        AssignmentOperator::TimesEqual => print_target(out, names, target),
        AssignmentOperator::DivisionEqual => print_target(out, names, target),
        AssignmentOperator::ModuloEqual => print_target(out, names, target),
        AssignmentOperator::AndEqual => print_target(out, names, target),
        AssignmentOperator::OrEqual => print_target(out, names, target),
        AssignmentOperator::XorEqual => print_target(out, names, target),
        AssignmentOperator::ShiftLeftAssign => print_target(out, names, target),
        AssignmentOperator::ShiftRightAssign => print_target(out, names, target),
    }
}

// Prints what `=` assigns to.
fn print_target_or_wildcard<S: TokenSink>(out: &mut S, names: &Names, target: &Expression)
    ensures { Prints S.after out.old out.new (assigned_slots names.now operators.Equal target.now) }
{
    if is_wildcard(names, target) {
        out.keyword("_");
    } else {
        print_target(out, names, target);
    }
}

// Prints what is assigned to, increased or decreased.
fn print_target<S: TokenSink>(out: &mut S, names: &Names, target: &Expression)
    ensures { Prints S.after out.old out.new (target_slots names.now target.now) }
{
    if is_target(target) {
        print_expression(out, names, target);
    } else {
        out.refuse(Unwritable::Target);
    }
}

// Prints an increment or a decrement without its `;`.
fn print_step<S: TokenSink>(
    out: &mut S,
    names: &Names,
    attributes: &Attributes,
    target: &ExpressionNode,
    sign: Symbol,
)
    ensures { Prints S.after out.old out.new (stepped_slots names.now attributes.now target.now.node sign) }
{
    if are_apart(attributes, &target.node) {
        print_attributes(out, names, attributes);
        print_target(out, names, &target.node);
        out.symbol(sign);
    } else {
        out.refuse(Unwritable::OpenAttribute);
    }
}

// The symbol of an assignment.
fn assignment_symbol(operator: AssignmentOperator) -> Symbol
    ensures { result ≡ assignment_symbol operator }
{
    match operator {
        AssignmentOperator::Equal => Symbol::Equal,
        AssignmentOperator::PlusEqual => Symbol::PlusEqual,
        AssignmentOperator::MinusEqual => Symbol::MinusEqual,
        AssignmentOperator::TimesEqual => Symbol::StarEqual,
        AssignmentOperator::DivisionEqual => Symbol::SlashEqual,
        AssignmentOperator::ModuloEqual => Symbol::PercentEqual,
        AssignmentOperator::AndEqual => Symbol::AndEqual,
        AssignmentOperator::OrEqual => Symbol::OrEqual,
        AssignmentOperator::XorEqual => Symbol::XorEqual,
        AssignmentOperator::ShiftLeftAssign => Symbol::ShiftLeftEqual,
        AssignmentOperator::ShiftRightAssign => Symbol::ShiftRightEqual,
    }
}
