//! Reading statements that hold no other statement (WGSL, "Statements").
ghost use Rattle.std.specs.Prelude.{codes};
ghost use Rattle.wesl_json_form.specs.View.{borrowed_view};
ghost use Rattle.wesl_json_form.specs.Schema.{a_call, node as node_form};
ghost use Rattle.wesl_json_form.specs.Words.{assignment_words};
ghost use Rattle.wesl_tree_syntax.specs.Tree.{assignment as assignment_label};
ghost use Rattle.wesl_tree_syntax.specs.View.{call_view, statement_view};
ghost use Rattle.wesl_json_read.specs.Noted.{NotesNeeded};
ghost use Rattle.wesl_json_read.specs.NotedNodes.{NotesOperator};
ghost use Rattle.wesl_json_read_statements.specs.declared.words.StatementWord.TheVariants as stated;
ghost use Rattle.wesl_json_read_statements.specs.Forms.{jump_word, step_word};
ghost use Rattle.wesl_json_read_statements.specs.Noted.{NotesStatement};

use crate::words::{JumpWord, StepWord, assignment_operator};
use wesl_json_form::BorrowedValue;
use wesl_json_read::Reader;
use wesl_tree_names::Ident;
use wesl_tree_syntax::{AssignmentOperator, FunctionCall, Statement, TypeExpression};

/// An assignment, by its operator at `op`.
pub(crate) fn assignment(reader: &mut Reader, value: &BorrowedValue<'_>) -> Statement
    ensures { NotesStatement stated.Assign (borrowed_view value.now) (statement_view result) reader.old reader.new }
{
    reader.keys(value, reader.spans, &["k", "op", "attrs", "lhs", "rhs"]);
    let operator = operator(reader, value);
    Statement::Assignment {
        attributes: reader.attributes(value, "attrs"),
        operator,
        lhs: reader.expression_at(value, "lhs"),
        rhs: reader.expression_at(value, "rhs"),
    }
}

// The operator of an assignment, at `op`.
fn operator(reader: &mut Reader, value: &BorrowedValue<'_>) -> AssignmentOperator
    ensures { NotesOperator assignment_words (borrowed_view value.now) (assignment_label result) reader.old reader.new }
{
    let Some(word) = reader.required(value, "op") else {
        return AssignmentOperator::Equal;
    };
    match word.as_str().and_then(assignment_operator) {
        Some(operator) => operator,
        None => {
            reader.wrong();
            reader.within("op");
            AssignmentOperator::Equal
        }
    }
}

/// `expr++;` or `expr--;`, by its word.
pub(crate) fn step(reader: &mut Reader, value: &BorrowedValue<'_>, word: StepWord) -> Statement
    ensures { NotesStatement (step_word word) (borrowed_view value.now) (statement_view result) reader.old reader.new }
{
    reader.keys(value, reader.spans, &["k", "attrs", "expr"]);
    let attributes = reader.attributes(value, "attrs");
    let expression = reader.expression_at(value, "expr");
    match word {
        StepWord::Increment => Statement::Increment {
            attributes,
            expression,
        },
        StepWord::Decrement => Statement::Decrement {
            attributes,
            expression,
        },
    }
}

/// `break;`, `continue;` or `discard;`, by its word.
pub(crate) fn jump(reader: &mut Reader, value: &BorrowedValue<'_>, word: JumpWord) -> Statement
    ensures { NotesStatement (jump_word word) (borrowed_view value.now) (statement_view result) reader.old reader.new }
{
    reader.keys(value, reader.spans, &["k", "attrs"]);
    let attributes = reader.attributes(value, "attrs");
    match word {
        JumpWord::Break => Statement::Break { attributes },
        JumpWord::Continue => Statement::Continue { attributes },
        JumpWord::Discard => Statement::Discard { attributes },
    }
}

/// `return;` or `return expr;`
pub(crate) fn return_statement(reader: &mut Reader, value: &BorrowedValue<'_>) -> Statement
    ensures { NotesStatement stated.Return (borrowed_view value.now) (statement_view result) reader.old reader.new }
{
    reader.keys(value, reader.spans, &["k", "attrs", "expr"]);
    Statement::Return {
        attributes: reader.attributes(value, "attrs"),
        expression: reader.optional_expression(value, "expr"),
    }
}

/// `call;`
pub(crate) fn call_statement(reader: &mut Reader, value: &BorrowedValue<'_>) -> Statement
    ensures { NotesStatement stated.Call (borrowed_view value.now) (statement_view result) reader.old reader.new }
{
    reader.keys(value, reader.spans, &["k", "attrs", "call"]);
    Statement::FunctionCall {
        attributes: reader.attributes(value, "attrs"),
        call: call(reader, value),
    }
}

// The call at `call`.
fn call(reader: &mut Reader, value: &BorrowedValue<'_>) -> FunctionCall
    ensures { NotesNeeded (codes "call") (node_form a_call) (borrowed_view value.now) (call_view result) reader.old reader.new }
{
    let Some(member) = reader.required(value, "call") else {
        return FunctionCall {
            ty: TypeExpression {
                path: None,
                ident: Ident(0),
                template_args: None,
            },
            arguments: Vec::new(reader.alloc),
        };
    };
    let call = reader.call(member);
    reader.within("call");
    call
}
