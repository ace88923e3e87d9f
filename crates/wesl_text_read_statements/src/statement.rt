//! Reading statements and bodies.
ghost use Rattle.wesl_tree_syntax.specs.Tree.{clauses as clause_list, for_loop, if_statement, list, loop, statements as statement_list, switch, while_loop};
ghost use Rattle.wesl_tree_syntax.specs.View.{clause_view, compound_view, continuing_view, else_if_view, else_view, if_view, listed, optional as option_view, statement_tree, statement_view};
ghost use Rattle.wesl_text_form.specs.Productions.{a_bare_statement, a_body, a_clause, a_continuing, a_statement, an_else, an_else_if, an_if, nothing, own};
ghost use Rattle.wesl_text_reading.specs.Reading.{any, at_level, node};
ghost use Rattle.wesl_text_read.specs.Attributes.{run_at};
ghost use Rattle.wesl_text_read.specs.Leads.{Reads};
ghost use Rattle.wesl_text_read.specs.Levels.{inner};
ghost use Rattle.wesl_text_read.specs.Parts.{may_at};
ghost use Rattle.wesl_text_read_statements.specs.Statements.{block_at, lower_statements_at, statement_at};

use crate::behind::{
    begins_clause, begins_continuing, begins_else, begins_else_if, begins_statement, close_block,
    peek_behind,
};
use crate::part::{optional_break_if, optional_part};
use crate::selector::{skip_colon, some_selectors};
use wesl_text_read::{Expected, Reader, Within};
use wesl_text_read_ahead::skip_word;
use wesl_text_read_simple::{StatementStart, optional_expression, read_simple, statement_start};
use wesl_text_tokens::Symbol;
use wesl_tree_syntax::{
    CompoundStatement, ContinuingStatement, ElseClause, ElseIfClause, IfClause, Statement,
    StatementNode, SwitchClause,
};

// A body without statements, in the place of one that is not read.
fn no_body(reader: &Reader<'_>) -> CompoundStatement {
    CompoundStatement {
        attributes: Vec::new(reader.alloc),
        statements: Vec::new(reader.alloc),
    }
}

// A clause without statements, in the place of one that is not read.
fn no_clause(reader: &Reader<'_>) -> SwitchClause {
    SwitchClause {
        attributes: Vec::new(reader.alloc),
        case_selectors: Vec::new(reader.alloc),
        body: no_body(reader),
    }
}

/// A body: attributes, and statements in braces.
#[cycle(statements)]
pub fn read_body(reader: &mut Reader<'_>) -> CompoundStatement
    ensures { Reads (inner reader.old.levels a_body) (compound_view result) reader.old reader.new }
{
    if reader.levels == 0 {
        reader.wrong(Expected::FewerLevels);
        return no_body(reader);
    }
    reader.levels -= 1;
    let body = body_within(reader);
    reader.levels += 1;
    body
}

// The parts of a body: its attributes and its statements.
#[cycle(statements)]
fn body_within(reader: &mut Reader<'_>) -> CompoundStatement
    ensures { Reads (node (inner reader.old.levels) a_body) (compound_view result) reader.old reader.new }
{
    let attributes = reader.attributes();
    reader.skip_sign(Symbol::BraceLeft);
    let statements = read_statements(reader);
    close_block(reader);
    CompoundStatement {
        attributes,
        statements,
    }
}

// The statements of a body.
#[cycle(statements)]
fn read_statements(reader: &mut Reader<'_>) -> Vec<StatementNode>
    ensures { Reads (run_at reader.old.levels statement_list a_statement)
        (listed statement_tree statement_list result) reader.old reader.new }
{
    let mut statements = Vec::new(reader.alloc);
    let mut room = reader.rest.len();
    let mut goes_on = begins_statement(reader);
    'statements: while goes_on && room > 0 {
        room -= 1;
        let statement = read_statement(reader);
        reader.put(&mut statements, statement);
        goes_on = begins_statement(reader);
    }
    reader.wrong_if(goes_on, Expected::FewerLevels);
    statements
}

/// A statement, from its attributes on.
#[cycle(statements)]
pub fn read_statement(reader: &mut Reader<'_>) -> StatementNode
    ensures { Reads (inner reader.old.levels a_statement) (statement_tree result) reader.old reader.new }
{
    let start = reader.place();
    let node = read_bare_statement(reader);
    reader.placed(start, node)
}

/// The same without its span.
#[cycle(statements)]
pub fn read_bare_statement(reader: &mut Reader<'_>) -> Statement
    ensures { Reads (inner reader.old.levels a_bare_statement) (statement_view result) reader.old reader.new }
{
    let behind = peek_behind(reader);
    match statement_start(behind) {
        StatementStart::Simple(start) => read_simple(reader, start),
        StatementStart::Compound => Statement::Compound(read_body(reader)),
        StatementStart::If => read_if(reader),
        StatementStart::Switch => read_switch(reader),
        StatementStart::Loop => read_loop(reader),
        StatementStart::For => read_for(reader),
        StatementStart::While => read_while(reader),
    }
}

// `if` with what goes on behind it.
#[cycle(statements)]
fn read_if(reader: &mut Reader<'_>) -> Statement
    ensures { Reads (statement_at reader.old.levels if_statement) (statement_view result) reader.old reader.new }
{
    let attributes = reader.attributes();
    let if_clause = read_if_clause(reader);
    let else_if_clauses = read_else_ifs(reader);
    let else_clause = optional_else(reader);
    Statement::If {
        attributes,
        if_clause,
        else_if_clauses,
        else_clause,
    }
}

// `if`, its condition and its body.
#[cycle(statements)]
fn read_if_clause(reader: &mut Reader<'_>) -> IfClause
    ensures { Reads (inner reader.old.levels an_if) (if_view result) reader.old reader.new }
{
    skip_word(reader, "if");
    let expression = reader.expression(Within::Anything);
    let body = read_body(reader);
    IfClause { expression, body }
}

// The `else if` that go on behind an `if`.
#[cycle(statements)]
fn read_else_ifs(reader: &mut Reader<'_>) -> Vec<ElseIfClause>
    ensures { Reads (run_at reader.old.levels list an_else_if)
        (listed else_if_view list result) reader.old reader.new }
{
    let mut clauses = Vec::new(reader.alloc);
    let mut room = reader.rest.len();
    let mut goes_on = begins_else_if(reader);
    'clauses: while goes_on && room > 0 {
        room -= 1;
        let clause = read_else_if(reader);
        reader.put(&mut clauses, clause);
        goes_on = begins_else_if(reader);
    }
    reader.wrong_if(goes_on, Expected::FewerLevels);
    clauses
}

// `else if`, from its attributes on.
#[cycle(statements)]
fn read_else_if(reader: &mut Reader<'_>) -> ElseIfClause
    ensures { Reads (inner reader.old.levels an_else_if) (else_if_view result) reader.old reader.new }
{
    let attributes = reader.attributes();
    skip_word(reader, "else");
    skip_word(reader, "if");
    let expression = reader.expression(Within::Anything);
    let body = read_body(reader);
    ElseIfClause {
        attributes,
        expression,
        body,
    }
}

// `else` with its body, where it stands.
#[cycle(statements)]
fn optional_else(reader: &mut Reader<'_>) -> Option<ElseClause>
    ensures { Reads (may_at reader.old.levels (own an_else nothing))
        (option_view else_view result) reader.old reader.new }
{
    if !begins_else(reader) {
        return None;
    }
    Some(read_else(reader))
}

// `else`, from its attributes on.
#[cycle(statements)]
fn read_else(reader: &mut Reader<'_>) -> ElseClause
    ensures { Reads (inner reader.old.levels an_else) (else_view result) reader.old reader.new }
{
    let attributes = reader.attributes();
    skip_word(reader, "else");
    let body = read_body(reader);
    ElseClause { attributes, body }
}

// `switch` with its clauses.
#[cycle(statements)]
fn read_switch(reader: &mut Reader<'_>) -> Statement
    ensures { Reads (statement_at reader.old.levels switch) (statement_view result) reader.old reader.new }
{
    let attributes = reader.attributes();
    skip_word(reader, "switch");
    let expression = reader.expression(Within::Anything);
    let body_attributes = reader.attributes();
    reader.skip_sign(Symbol::BraceLeft);
    let clauses = read_clauses(reader);
    close_block(reader);
    Statement::Switch {
        attributes,
        expression,
        body_attributes,
        clauses,
    }
}

// The clauses of a `switch`.
#[cycle(statements)]
fn read_clauses(reader: &mut Reader<'_>) -> Vec<SwitchClause>
    ensures { Reads (run_at reader.old.levels clause_list a_clause)
        (listed clause_view clause_list result) reader.old reader.new }
{
    let mut clauses = Vec::new(reader.alloc);
    let mut room = reader.rest.len();
    let mut goes_on = begins_clause(reader);
    'clauses: while goes_on && room > 0 {
        room -= 1;
        let clause = read_clause(reader);
        reader.put(&mut clauses, clause);
        goes_on = begins_clause(reader);
    }
    reader.wrong_if(goes_on, Expected::FewerLevels);
    clauses
}

// A clause of a `switch`.
#[cycle(statements)]
fn read_clause(reader: &mut Reader<'_>) -> SwitchClause
    ensures { Reads (inner reader.old.levels a_clause) (clause_view result) reader.old reader.new }
{
    if reader.levels == 0 {
        reader.wrong(Expected::FewerLevels);
        return no_clause(reader);
    }
    reader.levels -= 1;
    let clause = clause_within(reader);
    reader.levels += 1;
    clause
}

// The parts of a clause: its attributes, its selectors and its body.
#[cycle(statements)]
fn clause_within(reader: &mut Reader<'_>) -> SwitchClause
    ensures { Reads (node (inner reader.old.levels) a_clause) (clause_view result) reader.old reader.new }
{
    let attributes = reader.attributes();
    let case_selectors = some_selectors(reader);
    skip_colon(reader);
    let body = read_body(reader);
    SwitchClause {
        attributes,
        case_selectors,
        body,
    }
}

// `loop` with its body.
#[cycle(statements)]
fn read_loop(reader: &mut Reader<'_>) -> Statement
    ensures { Reads (statement_at reader.old.levels loop) (statement_view result) reader.old reader.new }
{
    let attributes = reader.attributes();
    skip_word(reader, "loop");
    let body = read_block(reader);
    let continuing = optional_continuing(reader);
    close_block(reader);
    Statement::Loop {
        attributes,
        body,
        continuing,
    }
}

// The body of a loop, or of `continuing`, without its `}`.
#[cycle(statements)]
fn read_block(reader: &mut Reader<'_>) -> CompoundStatement
    ensures { Reads (block_at reader.old.levels) (compound_view result) reader.old reader.new }
{
    let attributes = reader.attributes();
    reader.skip_sign(Symbol::BraceLeft);
    let statements = lower_statements(reader);
    CompoundStatement {
        attributes,
        statements,
    }
}

// The statements of such a body.
#[cycle(statements)]
fn lower_statements(reader: &mut Reader<'_>) -> Vec<StatementNode>
    ensures { Reads (lower_statements_at reader.old.levels)
        (listed statement_tree statement_list result) reader.old reader.new }
{
    let mut statements = Vec::new(reader.alloc);
    let mut room = reader.rest.len();
    let mut goes_on = begins_statement(reader);
    'statements: while goes_on && room > 0 {
        room -= 1;
        let statement = lower_statement(reader);
        reader.put(&mut statements, statement);
        goes_on = begins_statement(reader);
    }
    reader.wrong_if(goes_on, Expected::FewerLevels);
    statements
}

// One of them, which stands one level down.
#[cycle(statements)]
fn lower_statement(reader: &mut Reader<'_>) -> StatementNode
    ensures { Reads (at_level reader.old.levels any a_statement) (statement_tree result) reader.old reader.new }
{
    if reader.levels == 0 {
        reader.wrong(Expected::FewerLevels);
        return reader.placed(0, Statement::Void);
    }
    reader.levels -= 1;
    let statement = read_statement(reader);
    reader.levels += 1;
    statement
}

// `continuing` with its body, where it stands.
#[cycle(statements)]
fn optional_continuing(reader: &mut Reader<'_>) -> Option<ContinuingStatement>
    ensures { Reads (may_at reader.old.levels (own a_continuing nothing))
        (option_view continuing_view result) reader.old reader.new }
{
    if !begins_continuing(reader) {
        return None;
    }
    Some(read_continuing(reader))
}

// `continuing`, from its attributes on.
#[cycle(statements)]
fn read_continuing(reader: &mut Reader<'_>) -> ContinuingStatement
    ensures { Reads (inner reader.old.levels a_continuing) (continuing_view result) reader.old reader.new }
{
    let attributes = reader.attributes();
    skip_word(reader, "continuing");
    let body = read_block(reader);
    let break_if = optional_break_if(reader);
    close_block(reader);
    ContinuingStatement {
        attributes,
        body,
        break_if,
    }
}

// `for` with its parts and its body.
#[cycle(statements)]
fn read_for(reader: &mut Reader<'_>) -> Statement
    ensures { Reads (statement_at reader.old.levels for_loop) (statement_view result) reader.old reader.new }
{
    let attributes = reader.attributes();
    skip_word(reader, "for");
    reader.skip_sign(Symbol::ParenLeft);
    let initializer = optional_part(reader);
    reader.skip_sign(Symbol::Semicolon);
    let condition = optional_expression(reader);
    reader.skip_sign(Symbol::Semicolon);
    let update = optional_part(reader);
    reader.skip_sign(Symbol::ParenRight);
    let body = read_body(reader);
    Statement::For {
        attributes,
        initializer,
        condition,
        update,
        body,
    }
}

// `while` with its condition and its body.
#[cycle(statements)]
fn read_while(reader: &mut Reader<'_>) -> Statement
    ensures { Reads (statement_at reader.old.levels while_loop) (statement_view result) reader.old reader.new }
{
    let attributes = reader.attributes();
    skip_word(reader, "while");
    let condition = reader.expression(Within::Anything);
    let body = read_body(reader);
    Statement::While {
        attributes,
        condition,
        body,
    }
}
