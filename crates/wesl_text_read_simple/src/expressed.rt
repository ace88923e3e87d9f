//! Reading statements that begin with an expression: calls, and what is assigned, counted up and counted down.
ghost use Rattle.std.specs.Prelude.{◌≡◌, ◌∷◌, IfNone, IfSome, List, None, Some, [], false};
ghost use Rattle.wesl_tree_names.specs.Path.{Text};
ghost use Rattle.wesl_tree_syntax.specs.Tree.{assignment, branch, call_expression, respell, respell_label};
ghost use Rattle.wesl_tree_syntax.specs.Unit.{name_in};
ghost use Rattle.wesl_tree_syntax.specs.View.{attributes_tree, call_view, expression_tree, expression_view, statement_view};
ghost use Rattle.wesl_tree_syntax.specs.declared.statement.AssignmentOperator.TheVariants as operators;
ghost use Rattle.wesl_text_form.specs.Operators.{assignment_symbol};
ghost use Rattle.wesl_text_form.specs.Spelling.{is_kind};
ghost use Rattle.wesl_text_reading.specs.FirstTokens.{assignment_of};
ghost use Rattle.wesl_text_read.specs.Leads.{Leads, Numbers, Reads, ahead};
ghost use Rattle.wesl_text_read_simple.specs.Simple.{change_first, change_of, changed_at, may_change, part_at, part_view, read_wildcard, unended_at};
ghost use Rattle.wesl_text_read_simple.specs.Starts.{StatementBegins};

use std::alloc::Global;
use std::mem;
use wesl_text_operands::{are_apart, is_target};
use wesl_text_read::{Expected, Fault, Reader, Within};
use wesl_text_read_ahead::skip_word;
use wesl_text_tokens::Symbol;
use wesl_tree_names::Ident;
use wesl_tree_syntax::{
    AssignmentOperator, Attributes, Expression, ExpressionNode, FunctionCall, Statement,
    TypeExpression,
};

// What is done to what is assigned to.
#[derive(Clone, Copy, Drop)]
enum Change {
    // `++`
    Increment,
    // `--`
    Decrement,
    // `=`, or an operator that is joined to it
    Assignment(AssignmentOperator),
}

// What a statement begins with that begins with an expression.
#[derive(Drop)]
enum FirstPart {
    // a call
    Call(FunctionCall),
    // what is assigned to, and what is done to it
    Place(ExpressionNode, Change),
}

// The operator of an assignment that a symbol is, if it is one.
fn assignment_operator(sign: Symbol) -> Option<AssignmentOperator>
    ensures { result ≡ assignment_of sign }
{
    match sign {
        Symbol::Equal => Some(AssignmentOperator::Equal),
        Symbol::PlusEqual => Some(AssignmentOperator::PlusEqual),
        Symbol::MinusEqual => Some(AssignmentOperator::MinusEqual),
        Symbol::StarEqual => Some(AssignmentOperator::TimesEqual),
        Symbol::SlashEqual => Some(AssignmentOperator::DivisionEqual),
        Symbol::PercentEqual => Some(AssignmentOperator::ModuloEqual),
        Symbol::AndEqual => Some(AssignmentOperator::AndEqual),
        Symbol::OrEqual => Some(AssignmentOperator::OrEqual),
        Symbol::XorEqual => Some(AssignmentOperator::XorEqual),
        Symbol::ShiftLeftEqual => Some(AssignmentOperator::ShiftLeftAssign),
        Symbol::ShiftRightEqual => Some(AssignmentOperator::ShiftRightAssign),
        _ => None,
    }
}

// The symbol of an assignment's operator.
fn assignment_sign(operator: AssignmentOperator) -> Symbol
    ensures { result ≡ assignment_symbol operator }
{
    match operator {
        AssignmentOperator::Equal => Symbol::Equal,
        AssignmentOperator::PlusEqual => Symbol::PlusEqual,
        AssignmentOperator::MinusEqual => Symbol::MinusEqual,
        AssignmentOperator::TimesEqual => Symbol::StarEqual,
        AssignmentOperator::DivisionEqual => Symbol::SlashEqual,
        AssignmentOperator::ModuloEqual => Symbol::PercentEqual,
        AssignmentOperator::AndEqual => Symbol::AndEqual,
        AssignmentOperator::OrEqual => Symbol::OrEqual,
        AssignmentOperator::XorEqual => Symbol::XorEqual,
        AssignmentOperator::ShiftLeftAssign => Symbol::ShiftLeftEqual,
        AssignmentOperator::ShiftRightAssign => Symbol::ShiftRightEqual,
    }
}

// What a symbol does to what is assigned to, if it does anything.
fn change_of(sign: Symbol) -> Option<Change>
    ensures { result ≡ change_of sign }
{
    match sign {
        Symbol::PlusPlus => Some(Change::Increment),
        Symbol::MinusMinus => Some(Change::Decrement),
        _ => match assignment_operator(sign) {
            Some(operator) => Some(Change::Assignment(operator)),
            None => None,
        },
    }
}

// What the first token does to what is assigned to, if it does anything.
fn change_first(reader: &Reader<'_>) -> Option<Change>
    ensures { result ≡ change_first (ahead reader.now) }
{
    match reader.sign_first() {
        Some(sign) => change_of(sign),
        None => None,
    }
}

// A call that takes no memory, in the place of one that is taken out of its expression.
fn no_call(alloc: Global) -> FunctionCall {
    FunctionCall {
        ty: TypeExpression {
            path: None,
            ident: Ident(0),
            template_args: None,
        },
        arguments: Vec::new(alloc),
    }
}

// Takes the call out that an expression is, if it is one.
fn taken_call(alloc: Global, expression: &mut Expression) -> Option<FunctionCall>
    ensures call { IfSome result (λ c. expression_view expression.old ≡ branch call_expression (call_view c ∷ [])) }
    ensures none { IfNone result ((names : List Text) →
        is_kind call_expression (Some (respell_label (name_in names) (expression_view expression.old).label)) ≡ false) }
{
    match expression {
        Expression::FunctionCall(call) => Some(mem::replace(call, no_call(alloc))),
        Expression::Literal(_)
        | Expression::Parenthesized { .. }
        | Expression::NamedComponent { .. }
        | Expression::Indexing { .. }
        | Expression::Unary { .. }
        | Expression::Binary { .. }
        | Expression::TypeOrIdentifier(_) => None,
    }
}

// What a statement begins with that begins with an expression. An expression that is no call, and that nothing is done to,
// is read again as a call, to find where it stops being one.
fn first_part(reader: &mut Reader<'_>) -> FirstPart
    ensures { Leads (λ _. part_at reader.old.levels (ahead reader.old))
        (λ names. Some (part_view names result, ahead reader.new)) reader.old reader.new }
{
    let start = reader.rest;
    let mut expression = reader.expression(Within::Anything);
    if let Some(change) = change_first(reader) {
        return FirstPart::Place(expression, change);
    }
    match taken_call(reader.alloc, &mut expression.node) {
        Some(call) => FirstPart::Call(call),
        None => {
            if reader.fault.is_none() {
                reader.rest = start;
            }
            FirstPart::Call(reader.call())
        }
    }
}

// Whether an expression may be assigned to, and ends the attributes before it.
fn may_change(attributes: &Attributes, expression: &ExpressionNode) -> bool
    ensures { (names : List Text) → result ≡ may_change (respell (name_in names) (attributes_tree attributes.now))
        (respell (name_in names) (expression_tree expression.now)) }
{
    is_target(&expression.node) && are_apart(attributes, &expression.node)
}

// The statement of attributes and of what is assigned to, by what is behind them; without its `;`.
fn changed(
    reader: &mut Reader<'_>,
    attributes: Attributes,
    expression: ExpressionNode,
    change: Change,
) -> Statement
    ensures { Leads
        (λ names. changed_at reader.old.levels change (respell (name_in names) (attributes_tree attributes))
        (respell (name_in names) (expression_tree expression)) (ahead reader.old))
        (λ names. Some (respell (name_in names) (statement_view result), ahead reader.new)) reader.old reader.new }
{
    reader.wrong_if(!may_change(&attributes, &expression), Expected::Target);
    match change {
        Change::Increment => {
            reader.skip_sign(Symbol::PlusPlus);
            Statement::Increment {
                attributes,
                expression,
            }
        }
        Change::Decrement => {
            reader.skip_sign(Symbol::MinusMinus);
            Statement::Decrement {
                attributes,
                expression,
            }
        }
        Change::Assignment(operator) => {
            reader.skip_sign(assignment_sign(operator));
            let rhs = reader.expression(Within::Anything);
            Statement::Assignment {
                attributes,
                operator,
                lhs: expression,
                rhs,
            }
        }
    }
}

/// A statement that begins with an expression, without its `;`.
pub fn read_expressed(reader: &mut Reader<'_>) -> Statement
    requires { StatementBegins None reader.old }
    ensures { Reads (unended_at reader.old.levels) (statement_view result) reader.old reader.new }
{
    let attributes = reader.attributes();
    match first_part(reader) {
        FirstPart::Call(call) => Statement::FunctionCall { attributes, call },
        FirstPart::Place(expression, change) => changed(reader, attributes, expression, change),
    }
}

// The number of a name, the next one where it is met for the first time.
fn number_of(reader: &mut Reader<'_>, name: &str) -> Ident
    ensures { Numbers name.now result.0 reader.old reader.new }
{
    match reader.names.number(name) {
        Ok(id) => Ident(id.0),
        Err(_) => {
            reader.note(Fault::Memory);
            Ident(0)
        }
    }
}

// `_` as the target of an assignment.
fn read_wildcard(reader: &mut Reader<'_>) -> ExpressionNode
    ensures { Reads read_wildcard (expression_tree result) reader.old reader.new }
{
    let start = reader.place();
    skip_word(reader, "_");
    let ident = number_of(reader, "_");
    let node = Expression::TypeOrIdentifier(TypeExpression {
        path: None,
        ident,
        template_args: None,
    });
    reader.placed(start, node)
}

/// An assignment to `_`, without its `;`.
pub fn read_discarded(reader: &mut Reader<'_>) -> Statement
    requires { StatementBegins (Some (assignment operators.Equal)) reader.old }
    ensures { Reads (unended_at reader.old.levels) (statement_view result) reader.old reader.new }
{
    let attributes = reader.attributes();
    let lhs = read_wildcard(reader);
    reader.skip_sign(Symbol::Equal);
    let rhs = reader.expression(Within::Anything);
    Statement::Assignment {
        attributes,
        operator: AssignmentOperator::Equal,
        lhs,
        rhs,
    }
}
