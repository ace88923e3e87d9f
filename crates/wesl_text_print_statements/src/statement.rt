//! Printing statements (WGSL, "Statements").
ghost use Rattle.std.specs.Prelude.{[], List, map, ◌≡◌, ◌∷◌};
ghost use Rattle.wesl_text_form.specs.Productions.{a_bare_statement, a_body, a_break_if, a_clause, a_continuing, a_selector, a_statement, an_else, an_else_if, an_if};
ghost use Rattle.wesl_text_form.specs.Spelling.{is_lone_default};
ghost use Rattle.wesl_text_print.specs.Printing.{Prints, comma_slots, slots_in};
ghost use Rattle.wesl_text_print_statements.specs.Parts.{all_in, option_in, row_below, row_in};
ghost use Rattle.wesl_text_print_statements.specs.Bodies.{braced_clauses_slots, clauses_slots, closing_slots, ended_slots, for_slots, headed_slots, jump_row, opened_row, part_slots, selectors_slots, spelled_selector, spelled_selectors, statements_slots, the_break_if, the_continuing, the_else, the_expression};
ghost use Rattle.wesl_tree_names.specs.Path.{Text};
ghost use Rattle.wesl_tree_syntax.specs.Tree.{list};
ghost use Rattle.wesl_tree_syntax.specs.View.{attributes_tree, break_if_view, clause_view, compound_view, continuing_view, else_if_view, else_view, expression_tree, if_view, listed, selector_view, statement_tree, statement_view};

use crate::attribute::print_attributes;
use crate::simple::print_simple;
use crate::variable::print_assertion;
use wesl_text_print::{TokenSink, Unwritable, end_commas, print_comma, print_expression};
use wesl_text_tokens::Symbol;
use wesl_tree_names::Names;
use wesl_tree_syntax::{
    Attributes, BreakIfStatement, CaseSelector, CompoundStatement, ContinuingStatement, ElseClause,
    ElseIfClause, ExpressionNode, IfClause, Statement, StatementNode, SwitchClause,
};

/// Prints a body: its attributes, and its statements in braces.
#[cycle(statements)]
pub fn print_body<S: TokenSink>(out: &mut S, names: &Names, body: &CompoundStatement)
    ensures { Prints S.after out.old out.new (slots_in names.now a_body (compound_view body.now)) }
{
    open_body(out, names, body);
    close_body(out, !body.statements.is_empty(), false);
}

// Prints a body without its `}`.
#[cycle(statements)]
fn open_body<S: TokenSink>(out: &mut S, names: &Names, body: &CompoundStatement)
    ensures { Prints S.after out.old out.new (row_below names.now opened_row (compound_view body.now)) }
{
    print_attributes(out, names, &body.attributes);
    out.symbol(Symbol::BraceLeft);
    out.indent();
    print_statements(out, names, &body.statements);
    out.outdent();
}

// Prints the `}` of a body, on a line of its own if something stands in it.
fn close_body<S: TokenSink>(out: &mut S, has_statements: bool, has_end: bool)
    ensures { Prints S.after out.old out.new closing_slots }
{
    if has_statements || has_end {
        out.line();
        out.symbol(Symbol::BraceRight);
    } else {
        out.symbol(Symbol::BraceRight);
    }
}

// Prints statements, each on a line of its own.
#[cycle(statements)]
fn print_statements<S: TokenSink>(out: &mut S, names: &Names, statements: &Vec<StatementNode>)
    ensures { Prints S.after out.old out.new (statements_slots names.now statements.now) }
{
    for statement in statements {
        out.line();
        print_bare_statement(out, names, &statement.node);
    }
}

/// Prints a statement.
pub fn print_statement<S: TokenSink>(out: &mut S, names: &Names, statement: &StatementNode)
    ensures { Prints S.after out.old out.new (slots_in names.now a_statement (statement_tree statement.now)) }
{
    print_bare_statement(out, names, &statement.node);
}

// Prints a statement without its place.
#[cycle(statements)]
fn print_bare_statement<S: TokenSink>(out: &mut S, names: &Names, statement: &Statement)
    ensures { Prints S.after out.old out.new (slots_in names.now a_bare_statement (statement_view statement.now)) }
{
    match statement {
        Statement::Void => out.symbol(Symbol::Semicolon),
        Statement::Compound(body) => print_body(out, names, body),
        Statement::If {
            attributes,
            if_clause,
            else_if_clauses,
            else_clause,
        } => {
            print_attributes(out, names, attributes);
            print_if_clause(out, names, if_clause);
            print_else_ifs(out, names, else_if_clauses);
            print_optional_else(out, names, else_clause);
        }
        Statement::Switch {
            attributes,
            expression,
            body_attributes,
            clauses,
        } => {
            print_attributes(out, names, attributes);
            print_headed(out, names, "switch", expression);
            print_attributes(out, names, body_attributes);
            print_clauses(out, names, clauses);
        }
        Statement::Loop {
            attributes,
            body,
            continuing,
        } => {
            print_attributes(out, names, attributes);
            out.keyword("loop");
            out.space();
            open_body(out, names, body);
            print_optional_continuing(out, names, continuing);
            close_body(out, !body.statements.is_empty(), continuing.is_some());
        }
        Statement::For {
            attributes,
            initializer,
            condition,
            update,
            body,
        } => {
            print_attributes(out, names, attributes);
            out.keyword("for");
            out.space();
            print_for_parts(out, names, initializer, condition, update);
            out.space();
            print_body(out, names, body);
        }
        Statement::While {
            attributes,
            condition,
            body,
        } => {
            print_attributes(out, names, attributes);
            print_headed(out, names, "while", condition);
            print_body(out, names, body);
        }
        Statement::Break { attributes } => print_jump(out, names, "break", attributes),
        Statement::Continue { attributes } => print_jump(out, names, "continue", attributes),
        Statement::Discard { attributes } => print_jump(out, names, "discard", attributes),
        Statement::Return {
            attributes,
            expression,
        } => {
            print_attributes(out, names, attributes);
            out.keyword("return");
            print_optional_expression(out, names, expression);
            out.symbol(Symbol::Semicolon);
        }
        Statement::ConstAssert(assertion) => print_assertion(out, names, assertion),
        Statement::Assignment {
            attributes: _attributes,
            operator: _operator,
            lhs: _lhs,
            rhs: _rhs,
        } => print_ended(out, names, statement),
        Statement::Increment {
            attributes: _attributes,
            expression: _expression,
        } => print_ended(out, names, statement),
        Statement::Decrement {
            attributes: _attributes,
            expression: _expression,
        } => print_ended(out, names, statement),
        Statement::FunctionCall {
            attributes: _attributes,
            call: _call,
        } => print_ended(out, names, statement),
        Statement::Declaration(_declaration) => print_ended(out, names, statement),
    }
}

// Prints a statement that may stand in a `for`, with its `;`.
fn print_ended<S: TokenSink>(out: &mut S, names: &Names, statement: &Statement)
    ensures { Prints S.after out.old out.new (ended_slots names.now statement.now) }
{
    print_simple(out, names, statement);
    out.symbol(Symbol::Semicolon);
}

// Prints a keyword, an expression and a blank.
fn print_headed<S: TokenSink>(out: &mut S, names: &Names, word: &str, expression: &ExpressionNode)
    ensures { Prints S.after out.old out.new (headed_slots names.now word.now expression.now.node) }
{
    out.keyword(word);
    out.space();
    print_expression(out, names, &expression.node);
    out.space();
}

// Prints a statement that is one word.
fn print_jump<S: TokenSink>(out: &mut S, names: &Names, word: &str, attributes: &Attributes)
    ensures { Prints S.after out.old out.new (row_in names.now (jump_row word.now) (attributes_tree attributes.now ∷ [])) }
{
    print_attributes(out, names, attributes);
    out.keyword(word);
    out.symbol(Symbol::Semicolon);
}

// Prints a blank and an expression, an option.
fn print_optional_expression<S: TokenSink>(
    out: &mut S,
    names: &Names,
    expression: &Option<ExpressionNode>,
)
    ensures { Prints S.after out.old out.new (option_in names.now the_expression expression_tree expression.now) }
{
    match expression {
        Some(expression) => {
            out.space();
            print_expression(out, names, &expression.node);
        }
        None => {}
    }
}

// Prints `if` with its condition and its body.
#[cycle(statements)]
fn print_if_clause<S: TokenSink>(out: &mut S, names: &Names, clause: &IfClause)
    ensures { Prints S.after out.old out.new (slots_in names.now an_if (if_view clause.now)) }
{
    print_headed(out, names, "if", &clause.expression);
    print_body(out, names, &clause.body);
}

// Prints each `else if`.
#[cycle(statements)]
fn print_else_ifs<S: TokenSink>(out: &mut S, names: &Names, clauses: &Vec<ElseIfClause>)
    ensures { Prints S.after out.old out.new (all_in names.now an_else_if (listed else_if_view list clauses.now).children) }
{
    for clause in clauses {
        out.space();
        print_else_if(out, names, clause);
    }
}

// Prints an `else if` with its condition and its body.
#[cycle(statements)]
fn print_else_if<S: TokenSink>(out: &mut S, names: &Names, clause: &ElseIfClause)
    ensures { Prints S.after out.old out.new (slots_in names.now an_else_if (else_if_view clause.now)) }
{
    print_attributes(out, names, &clause.attributes);
    out.keyword("else");
    out.space();
    print_headed(out, names, "if", &clause.expression);
    print_body(out, names, &clause.body);
}

// Prints `else` with its body, an option.
#[cycle(statements)]
fn print_optional_else<S: TokenSink>(out: &mut S, names: &Names, clause: &Option<ElseClause>)
    ensures { Prints S.after out.old out.new (option_in names.now the_else else_view clause.now) }
{
    match clause {
        Some(clause) => {
            out.space();
            print_else(out, names, clause);
        }
        None => {}
    }
}

// Prints `else` with its body.
#[cycle(statements)]
fn print_else<S: TokenSink>(out: &mut S, names: &Names, otherwise: &ElseClause)
    ensures { Prints S.after out.old out.new (slots_in names.now an_else (else_view otherwise.now)) }
{
    print_attributes(out, names, &otherwise.attributes);
    out.keyword("else");
    out.space();
    print_body(out, names, &otherwise.body);
}

// Prints the clauses of a `switch` in braces.
#[cycle(statements)]
fn print_clauses<S: TokenSink>(out: &mut S, names: &Names, clauses: &Vec<SwitchClause>)
    ensures { Prints S.after out.old out.new (braced_clauses_slots names.now clauses.now) }
{
    out.symbol(Symbol::BraceLeft);
    out.indent();
    print_each_clause(out, names, clauses);
    out.outdent();
    close_body(out, !clauses.is_empty(), false);
}

// Prints the clauses of a `switch`, each on a line of its own.
#[cycle(statements)]
fn print_each_clause<S: TokenSink>(out: &mut S, names: &Names, clauses: &Vec<SwitchClause>)
    ensures { Prints S.after out.old out.new (clauses_slots names.now clauses.now) }
{
    for clause in clauses {
        out.line();
        print_clause(out, names, clause);
    }
}

// Prints a clause of a `switch`.
#[cycle(statements)]
fn print_clause<S: TokenSink>(out: &mut S, names: &Names, clause: &SwitchClause)
    ensures { Prints S.after out.old out.new (slots_in names.now a_clause (clause_view clause.now)) }
{
    print_attributes(out, names, &clause.attributes);
    print_selectors(out, names, &clause.case_selectors);
    out.may(Symbol::Colon);
    out.space();
    print_body(out, names, &clause.body);
}

// Prints the selectors of a clause: at least one.
fn print_selectors<S: TokenSink>(out: &mut S, names: &Names, selectors: &Vec<CaseSelector>)
    ensures { Prints S.after out.old out.new (selectors_slots names.now selectors.now) }
{
    if selectors.is_empty() {
        out.refuse(Unwritable::NoSelectors);
    } else if is_default_alone(selectors) {
        out.default();
    } else {
        out.keyword("case");
        out.space();
        print_each_selector(out, names, selectors);
    }
}

// Whether the selectors are `default` alone.
fn is_default_alone(selectors: &Vec<CaseSelector>) -> bool
    ensures { (names : List Text) → result ≡ is_lone_default (spelled_selectors names selectors.now) }
{
    if selectors.len() == 1 {
        is_default(&selectors[0])
    } else {
        false
    }
}

// Whether a selector is `default`.
fn is_default(selector: &CaseSelector) -> bool
    ensures { (names : List Text) → result ≡ is_lone_default (spelled_selector names selector.now) }
{
    match selector {
        CaseSelector::Default => true,
        CaseSelector::Expression(_expression) => false,
    }
}

// Prints selectors with commas between them.
fn print_each_selector<S: TokenSink>(out: &mut S, names: &Names, selectors: &Vec<CaseSelector>)
    ensures { Prints S.after out.old out.new (comma_slots names.now a_selector (map selector_view selectors.now.items)) }
{
    let mut is_first = true;
    for selector in selectors {
        print_comma(out, is_first);
        is_first = false;
        print_selector(out, names, selector);
    }
    end_commas(out, is_first);
}

// Prints a selector.
fn print_selector<S: TokenSink>(out: &mut S, names: &Names, selector: &CaseSelector)
    ensures { Prints S.after out.old out.new (slots_in names.now a_selector (selector_view selector.now)) }
{
    match selector {
        CaseSelector::Default => out.keyword("default"),
        CaseSelector::Expression(expression) => print_expression(out, names, &expression.node),
    }
}

// Prints the `continuing` at the end of a body on a line of its own, an option.
#[cycle(statements)]
fn print_optional_continuing<S: TokenSink>(
    out: &mut S,
    names: &Names,
    continuing: &Option<ContinuingStatement>,
)
    ensures { Prints S.after out.old out.new (option_in names.now the_continuing continuing_view continuing.now) }
{
    match continuing {
        Some(continuing) => {
            out.indent();
            out.line();
            print_continuing(out, names, continuing);
            out.outdent();
        }
        None => {}
    }
}

// Prints a `continuing` with its body.
#[cycle(statements)]
fn print_continuing<S: TokenSink>(out: &mut S, names: &Names, continuing: &ContinuingStatement)
    ensures { Prints S.after out.old out.new (slots_in names.now a_continuing (continuing_view continuing.now)) }
{
    print_attributes(out, names, &continuing.attributes);
    out.keyword("continuing");
    out.space();
    open_body(out, names, &continuing.body);
    print_optional_break_if(out, names, &continuing.break_if);
    close_body(
        out,
        !continuing.body.statements.is_empty(),
        continuing.break_if.is_some(),
    );
}

// Prints the `break if` at the end of a body on a line of its own, an option.
fn print_optional_break_if<S: TokenSink>(
    out: &mut S,
    names: &Names,
    break_if: &Option<BreakIfStatement>,
)
    ensures { Prints S.after out.old out.new (option_in names.now the_break_if break_if_view break_if.now) }
{
    match break_if {
        Some(break_if) => {
            out.indent();
            out.line();
            print_break_if(out, names, break_if);
            out.outdent();
        }
        None => {}
    }
}

// Prints a `break if`.
fn print_break_if<S: TokenSink>(out: &mut S, names: &Names, break_if: &BreakIfStatement)
    ensures { Prints S.after out.old out.new (slots_in names.now a_break_if (break_if_view break_if.now)) }
{
    print_attributes(out, names, &break_if.attributes);
    out.keyword("break");
    out.space();
    out.keyword("if");
    out.space();
    print_expression(out, names, &break_if.expression.node);
    out.symbol(Symbol::Semicolon);
}

// Prints the parts of a `for` in parentheses.
fn print_for_parts<S: TokenSink>(
    out: &mut S,
    names: &Names,
    initializer: &Option<Box<StatementNode>>,
    condition: &Option<ExpressionNode>,
    update: &Option<Box<StatementNode>>,
)
    ensures { Prints S.after out.old out.new (for_slots names.now initializer.now condition.now update.now) }
{
    out.symbol(Symbol::ParenLeft);
    print_initializer(out, names, initializer);
    out.symbol(Symbol::Semicolon);
    print_optional_expression(out, names, condition);
    out.symbol(Symbol::Semicolon);
    print_update(out, names, update);
    out.symbol(Symbol::ParenRight);
}

// Prints what a `for` begins with, without its `;`, an option.
fn print_initializer<S: TokenSink>(out: &mut S, names: &Names, part: &Option<Box<StatementNode>>)
    ensures { Prints S.after out.old out.new (part_slots names.now part.now) }
{
    match part {
        Some(statement) => print_simple(out, names, &statement.node),
        None => {}
    }
}

// Prints a blank and what a `for` does after each turn, an option.
fn print_update<S: TokenSink>(out: &mut S, names: &Names, part: &Option<Box<StatementNode>>)
    ensures { Prints S.after out.old out.new (part_slots names.now part.now) }
{
    match part {
        Some(statement) => {
            out.space();
            print_simple(out, names, &statement.node);
        }
        None => {}
    }
}
