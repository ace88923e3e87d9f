//! Reading statements and blocks (WGSL, "Statements").
ghost use Rattle.std.specs.Prelude.{codes};
ghost use Rattle.wesl_json_form.specs.View.{borrowed_view};
ghost use Rattle.wesl_tree_syntax.specs.Tree.{clauses as clause_list, list};
ghost use Rattle.wesl_tree_syntax.specs.View.{clause_view, compound_view, continuing_view, else_if_view, else_view, listed, optional as option_view, statement_tree, statement_view};
ghost use Rattle.wesl_json_form.specs.Schema.{a_body, a_clause, a_continuing, a_statement, an_elif, an_else, node as node_form};
ghost use Rattle.wesl_json_read.specs.Noted.{NotesForm, NotesMany, NotesMay, NotesNeeded};
ghost use Rattle.wesl_json_read_statements.specs.declared.words.StatementWord.TheVariants as stated;
ghost use Rattle.wesl_json_read_statements.specs.Forms.{some_clauses, some_elifs, some_statements};
ghost use Rattle.wesl_json_read_statements.specs.Noted.{NotesStatement, NotesStatementWord};
ghost use Rattle.wesl_json_read_statements.specs.Views.{boxed_statement, statements_tree};

use crate::declared::{read_declared, statement_of};
use crate::selector::{break_if, cases};
use crate::simple::{assignment, call_statement, jump, return_statement, step};
use crate::words::{JumpWord, StatementWord, StepWord, statement_word};
use wesl_json_form::BorrowedValue;
use wesl_json_read::Reader;
use wesl_tree_syntax::{
    CompoundStatement, ContinuingStatement, ElseClause, ElseIfClause, IfClause, Spanned, Statement,
    StatementNode, SwitchClause,
};

// The statement that an object is, by its word at `k`.
#[cycle(statements)]
fn statement(reader: &mut Reader, value: &BorrowedValue<'_>) -> StatementNode
    ensures { NotesForm (node_form a_statement) (borrowed_view value.now) (statement_tree result) reader.old reader.new }
{
    let word = word_of(reader, value);
    Spanned {
        span: reader.span(value),
        node: worded_statement(reader, value, word),
    }
}

// The word at `k`.
fn word_of(reader: &mut Reader, value: &BorrowedValue<'_>) -> StatementWord
    ensures { NotesStatementWord (borrowed_view value.now) result reader.old reader.new }
{
    let Some(word) = reader.required(value, "k") else {
        return StatementWord::Discard;
    };
    match word.as_str().and_then(statement_word) {
        Some(word) => word,
        None => {
            reader.wrong();
            reader.within("k");
            StatementWord::Discard
        }
    }
}

#[cycle(statements)]
fn worded_statement(
    reader: &mut Reader,
    value: &BorrowedValue<'_>,
    word: StatementWord,
) -> Statement
    ensures { NotesStatement word (borrowed_view value.now) (statement_view result) reader.old reader.new }
{
    match word {
        StatementWord::Block => block(reader, value),
        StatementWord::Assign => assignment(reader, value),
        StatementWord::Increment => step(reader, value, StepWord::Increment),
        StatementWord::Decrement => step(reader, value, StepWord::Decrement),
        StatementWord::If => if_statement(reader, value),
        StatementWord::Switch => switch_statement(reader, value),
        StatementWord::Loop => loop_statement(reader, value),
        StatementWord::For => for_statement(reader, value),
        StatementWord::While => while_statement(reader, value),
        StatementWord::Break => jump(reader, value, JumpWord::Break),
        StatementWord::Continue => jump(reader, value, JumpWord::Continue),
        StatementWord::Discard => jump(reader, value, JumpWord::Discard),
        StatementWord::Return => return_statement(reader, value),
        StatementWord::Call => call_statement(reader, value),
        StatementWord::Declared(word) => statement_of(read_declared(reader, value, word)),
    }
}

#[cycle(statements)]
fn block(reader: &mut Reader, value: &BorrowedValue<'_>) -> Statement
    ensures { NotesStatement stated.Block (borrowed_view value.now) (statement_view result) reader.old reader.new }
{
    reader.keys(value, reader.spans, &["k", "attrs", "stmts"]);
    Statement::Compound(CompoundStatement {
        attributes: reader.attributes(value, "attrs"),
        statements: statements(reader, value),
    })
}

#[cycle(statements)]
fn if_statement(reader: &mut Reader, value: &BorrowedValue<'_>) -> Statement
    ensures { NotesStatement stated.If (borrowed_view value.now) (statement_view result) reader.old reader.new }
{
    let known = &["k", "attrs", "cond", "body", "elifs", "else"];
    reader.keys(value, reader.spans, known);
    Statement::If {
        attributes: reader.attributes(value, "attrs"),
        if_clause: IfClause {
            expression: reader.expression_at(value, "cond"),
            body: body(reader, value),
        },
        else_if_clauses: else_ifs(reader, value),
        else_clause: else_clause(reader, value),
    }
}

#[cycle(statements)]
fn switch_statement(reader: &mut Reader, value: &BorrowedValue<'_>) -> Statement
    ensures { NotesStatement stated.Switch (borrowed_view value.now) (statement_view result) reader.old reader.new }
{
    let known = &["k", "attrs", "expr", "body_attrs", "clauses"];
    reader.keys(value, reader.spans, known);
    Statement::Switch {
        attributes: reader.attributes(value, "attrs"),
        expression: reader.expression_at(value, "expr"),
        body_attributes: reader.attributes(value, "body_attrs"),
        clauses: clauses(reader, value),
    }
}

#[cycle(statements)]
fn loop_statement(reader: &mut Reader, value: &BorrowedValue<'_>) -> Statement
    ensures { NotesStatement stated.Loop (borrowed_view value.now) (statement_view result) reader.old reader.new }
{
    reader.keys(value, reader.spans, &["k", "attrs", "body", "continuing"]);
    Statement::Loop {
        attributes: reader.attributes(value, "attrs"),
        body: body(reader, value),
        continuing: continuing(reader, value),
    }
}

#[cycle(statements)]
fn for_statement(reader: &mut Reader, value: &BorrowedValue<'_>) -> Statement
    ensures { NotesStatement stated.For (borrowed_view value.now) (statement_view result) reader.old reader.new }
{
    let known = &["k", "attrs", "init", "cond", "update", "body"];
    reader.keys(value, reader.spans, known);
    Statement::For {
        attributes: reader.attributes(value, "attrs"),
        initializer: optional_statement(reader, value, "init"),
        condition: reader.optional_expression(value, "cond"),
        update: optional_statement(reader, value, "update"),
        body: body(reader, value),
    }
}

#[cycle(statements)]
fn while_statement(reader: &mut Reader, value: &BorrowedValue<'_>) -> Statement
    ensures { NotesStatement stated.While (borrowed_view value.now) (statement_view result) reader.old reader.new }
{
    reader.keys(value, reader.spans, &["k", "attrs", "cond", "body"]);
    Statement::While {
        attributes: reader.attributes(value, "attrs"),
        condition: reader.expression_at(value, "cond"),
        body: body(reader, value),
    }
}

/// The block at `body`, which must be there.
#[cycle(statements)]
pub fn body(reader: &mut Reader, value: &BorrowedValue<'_>) -> CompoundStatement
    ensures { NotesNeeded (codes "body") (node_form a_body) (borrowed_view value.now) (compound_view result) reader.old reader.new }
{
    let Some(member) = reader.required(value, "body") else {
        return CompoundStatement {
            attributes: Vec::new(reader.alloc),
            statements: Vec::new(reader.alloc),
        };
    };
    reader.keys(member, false, &["attrs", "stmts"]);
    let attributes = reader.attributes(member, "attrs");
    let statements = statements(reader, member);
    reader.within("body");
    CompoundStatement {
        attributes,
        statements,
    }
}

// The statements at `stmts`, a list.
#[cycle(statements)]
fn statements(reader: &mut Reader, value: &BorrowedValue<'_>) -> Vec<StatementNode>
    ensures { NotesMany (codes "stmts") some_statements (borrowed_view value.now) (statements_tree result) reader.old reader.new }
{
    let Some(items) = reader.list(value, "stmts") else {
        return Vec::new(reader.alloc);
    };
    let mut statements = reader.room(items.len());
    for (index, item) in items.iter().enumerate() {
        if !reader.is_stopped() {
            let statement = statement(reader, item);
            reader.put(&mut statements, index, statement);
        }
    }
    reader.within("stmts");
    statements
}

// The statement at `key`, an option; none where memory was refused for its box.
#[cycle(statements)]
fn optional_statement(
    reader: &mut Reader,
    value: &BorrowedValue<'_>,
    key: &str,
) -> Option<Box<StatementNode>>
    ensures { NotesMay key.now (node_form a_statement) (borrowed_view value.now) (option_view boxed_statement result) reader.old reader.new }
{
    let Some(member) = reader.optional(value, key) else {
        return None;
    };
    let statement = statement(reader, member);
    reader.within(key);
    reader.boxed(statement)
}

// The clauses at `elifs`, a list.
#[cycle(statements)]
fn else_ifs(reader: &mut Reader, value: &BorrowedValue<'_>) -> Vec<ElseIfClause>
    ensures { NotesMany (codes "elifs") some_elifs (borrowed_view value.now) (listed else_if_view list result) reader.old reader.new }
{
    let Some(items) = reader.list(value, "elifs") else {
        return Vec::new(reader.alloc);
    };
    let mut clauses = reader.room(items.len());
    for (index, item) in items.iter().enumerate() {
        if !reader.is_stopped() {
            let clause = else_if(reader, item);
            reader.put(&mut clauses, index, clause);
        }
    }
    reader.within("elifs");
    clauses
}

#[cycle(statements)]
fn else_if(reader: &mut Reader, value: &BorrowedValue<'_>) -> ElseIfClause
    ensures { NotesForm (node_form an_elif) (borrowed_view value.now) (else_if_view result) reader.old reader.new }
{
    reader.keys(value, false, &["attrs", "cond", "body"]);
    ElseIfClause {
        attributes: reader.attributes(value, "attrs"),
        expression: reader.expression_at(value, "cond"),
        body: body(reader, value),
    }
}

// The clause at `else`, an option.
#[cycle(statements)]
fn else_clause(reader: &mut Reader, value: &BorrowedValue<'_>) -> Option<ElseClause>
    ensures { NotesMay (codes "else") (node_form an_else) (borrowed_view value.now) (option_view else_view result) reader.old reader.new }
{
    let Some(member) = reader.optional(value, "else") else {
        return None;
    };
    reader.keys(member, false, &["attrs", "body"]);
    let attributes = reader.attributes(member, "attrs");
    let body = body(reader, member);
    reader.within("else");
    Some(ElseClause { attributes, body })
}

// The clauses at `clauses`, a list.
#[cycle(statements)]
fn clauses(reader: &mut Reader, value: &BorrowedValue<'_>) -> Vec<SwitchClause>
    ensures { NotesMany (codes "clauses") some_clauses (borrowed_view value.now) (listed clause_view clause_list result) reader.old reader.new }
{
    let Some(items) = reader.list(value, "clauses") else {
        return Vec::new(reader.alloc);
    };
    let mut clauses = reader.room(items.len());
    for (index, item) in items.iter().enumerate() {
        if !reader.is_stopped() {
            let clause = clause(reader, item);
            reader.put(&mut clauses, index, clause);
        }
    }
    reader.within("clauses");
    clauses
}

#[cycle(statements)]
fn clause(reader: &mut Reader, value: &BorrowedValue<'_>) -> SwitchClause
    ensures { NotesForm (node_form a_clause) (borrowed_view value.now) (clause_view result) reader.old reader.new }
{
    reader.keys(value, false, &["attrs", "cases", "body"]);
    SwitchClause {
        attributes: reader.attributes(value, "attrs"),
        case_selectors: cases(reader, value),
        body: body(reader, value),
    }
}

// What stands at `continuing`, an option.
#[cycle(statements)]
fn continuing(reader: &mut Reader, value: &BorrowedValue<'_>) -> Option<ContinuingStatement>
    ensures { NotesMay (codes "continuing") (node_form a_continuing) (borrowed_view value.now) (option_view continuing_view result) reader.old reader.new }
{
    let Some(member) = reader.optional(value, "continuing") else {
        return None;
    };
    reader.keys(member, false, &["attrs", "body", "break_if"]);
    let attributes = reader.attributes(member, "attrs");
    let body = body(reader, member);
    let break_if = break_if(reader, member);
    reader.within("continuing");
    Some(ContinuingStatement {
        attributes,
        body,
        break_if,
    })
}
