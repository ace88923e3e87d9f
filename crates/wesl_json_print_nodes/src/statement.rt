//! Printing statements.
ghost use Rattle.std.specs.Prelude.{[], codes};
ghost use Rattle.serde_json.specs.Data.{array};
ghost use Rattle.wesl_json_form.specs.Schema.{a_body, a_break_if, a_case, a_clause, a_continuing, a_statement, an_elif, an_else};
ghost use Rattle.wesl_json_print_nodes.specs.Lists.{case_items, clause_items, elif_items, statement_items};
ghost use Rattle.wesl_json_print_nodes.specs.Printing.{Prints, PrintsList, PrintsMember, PrintsOption, PrintsStatement, assigned_by, boxed_statement, called, jumped, node_in, returned, stepped};
ghost use Rattle.wesl_json_words.specs.Values.{declaration_at, statement_at};
ghost use Rattle.wesl_tree_syntax.specs.Tree.{branch, void};
ghost use Rattle.wesl_tree_syntax.specs.View.{break_if_view, call_view, clause_view, compound_view, continuing_view, else_if_view, else_view, selector_view, statement_view};

use crate::attribute::print_attributes;
use crate::declaration::{print_assertion, print_declaration};
use crate::expression::{
    print_call, print_expression, print_expression_at, print_optional_expression,
};
use crate::printer::Printer;
use crate::sink::Sink;
use wesl_json_words::assignment_word;
use wesl_tree_names::{Names, Span};
use wesl_tree_syntax::{
    AssignmentOperator, Attributes, BreakIfStatement, CaseSelector, CompoundStatement,
    ContinuingStatement, ElseClause, ElseIfClause, ExpressionNode, FunctionCall, IfClause,
    Statement, StatementNode, SwitchClause,
};

/// Prints a statement.
#[cycle(printing)]
fn print_statement<S: Sink>(
    out: &mut Printer<S>,
    spans: bool,
    names: &Names,
    statement: &Statement,
    span: Span,
)
    ensures { Prints S.after out.old out.new (statement_at spans names.now span (statement_view statement.now)) }
{
    match statement {
        Statement::Void => print_void(out, spans, names, span),
        Statement::Compound(body) => {
            out.begin();
            print_attributes(out, spans, names, "attrs", &body.attributes);
            out.text_at("k", "block");
            out.span(spans, span);
            print_statements(out, spans, names, &body.statements);
            out.close();
        }
        Statement::Assignment {
            attributes,
            operator,
            lhs,
            rhs,
        } => print_assignment(out, spans, names, attributes, *operator, lhs, rhs, span),
        Statement::Increment {
            attributes,
            expression,
        } => print_step(out, spans, names, "inc", attributes, expression, span),
        Statement::Decrement {
            attributes,
            expression,
        } => print_step(out, spans, names, "dec", attributes, expression, span),
        Statement::If {
            attributes,
            if_clause,
            else_if_clauses,
            else_clause,
        } => {
            out.begin();
            print_attributes(out, spans, names, "attrs", attributes);
            print_body_at(out, spans, names, &if_clause.body);
            print_expression_at(
                out,
                spans,
                names,
                "cond",
                &if_clause.expression.node,
                if_clause.expression.span,
            );
            print_elifs(out, spans, names, else_if_clauses);
            print_optional_else(out, spans, names, else_clause);
            out.text_at("k", "if");
            out.span(spans, span);
            out.close();
        }
        Statement::Switch {
            attributes,
            expression,
            body_attributes,
            clauses,
        } => {
            out.begin();
            print_attributes(out, spans, names, "attrs", attributes);
            print_attributes(out, spans, names, "body_attrs", body_attributes);
            print_clauses(out, spans, names, clauses);
            print_expression_at(out, spans, names, "expr", &expression.node, expression.span);
            out.text_at("k", "switch");
            out.span(spans, span);
            out.close();
        }
        Statement::Loop {
            attributes,
            body,
            continuing,
        } => {
            out.begin();
            print_attributes(out, spans, names, "attrs", attributes);
            print_body_at(out, spans, names, body);
            print_optional_continuing(out, spans, names, continuing);
            out.text_at("k", "loop");
            out.span(spans, span);
            out.close();
        }
        Statement::For {
            attributes,
            initializer,
            condition,
            update,
            body,
        } => {
            out.begin();
            print_attributes(out, spans, names, "attrs", attributes);
            print_body_at(out, spans, names, body);
            print_optional_expression(out, spans, names, "cond", condition);
            print_optional_statement(out, spans, names, "init", initializer);
            out.text_at("k", "for");
            out.span(spans, span);
            print_optional_statement(out, spans, names, "update", update);
            out.close();
        }
        Statement::While {
            attributes,
            condition,
            body,
        } => {
            out.begin();
            print_attributes(out, spans, names, "attrs", attributes);
            print_body_at(out, spans, names, body);
            print_expression_at(out, spans, names, "cond", &condition.node, condition.span);
            out.text_at("k", "while");
            out.span(spans, span);
            out.close();
        }
        Statement::Break { attributes } => {
            print_jump(out, spans, names, "break", attributes, span)
        }
        Statement::Continue { attributes } => {
            print_jump(out, spans, names, "continue", attributes, span)
        }
        Statement::Return {
            attributes,
            expression,
        } => print_return(out, spans, names, attributes, expression, span),
        Statement::Discard { attributes } => {
            print_jump(out, spans, names, "discard", attributes, span)
        }
        Statement::FunctionCall { attributes, call } => {
            print_call_statement(out, spans, names, attributes, call, span)
        }
        Statement::ConstAssert(assertion) => print_assertion(out, spans, names, assertion, span),
        Statement::Declaration(declaration) => {
            print_declaration(out, spans, names, declaration, span)
        }
    }
}

/// Prints a void statement, which is also printed so as a declaration.
pub(crate) fn print_void<S: Sink>(out: &mut Printer<S>, spans: bool, names: &Names, span: Span)
    ensures global { Prints S.after out.old out.new (declaration_at spans names.now span (branch void [])) }
    ensures local { Prints S.after out.old out.new (statement_at spans names.now span (branch void [])) }
{
    out.begin();
    out.text_at("k", "void");
    out.span(spans, span);
    out.close();
}

fn print_assignment<S: Sink>(
    out: &mut Printer<S>,
    spans: bool,
    names: &Names,
    attributes: &Attributes,
    operator: AssignmentOperator,
    lhs: &ExpressionNode,
    rhs: &ExpressionNode,
    span: Span,
)
    ensures { PrintsStatement S.after out.old out.new spans span (assigned_by spans names.now operator attributes.now lhs.now rhs.now) }
{
    out.begin();
    print_attributes(out, spans, names, "attrs", attributes);
    out.text_at("k", "assign");
    print_expression_at(out, spans, names, "lhs", &lhs.node, lhs.span);
    out.text_at("op", assignment_word(operator));
    print_expression_at(out, spans, names, "rhs", &rhs.node, rhs.span);
    out.span(spans, span);
    out.close();
}

fn print_return<S: Sink>(
    out: &mut Printer<S>,
    spans: bool,
    names: &Names,
    attributes: &Attributes,
    expression: &Option<ExpressionNode>,
    span: Span,
)
    ensures { PrintsStatement S.after out.old out.new spans span (returned spans names.now attributes.now expression.now) }
{
    out.begin();
    print_attributes(out, spans, names, "attrs", attributes);
    print_optional_expression(out, spans, names, "expr", expression);
    out.text_at("k", "return");
    out.span(spans, span);
    out.close();
}

fn print_call_statement<S: Sink>(
    out: &mut Printer<S>,
    spans: bool,
    names: &Names,
    attributes: &Attributes,
    call: &FunctionCall,
    span: Span,
)
    ensures { PrintsStatement S.after out.old out.new spans span (called spans names.now attributes.now (call_view call.now)) }
{
    out.begin();
    print_attributes(out, spans, names, "attrs", attributes);
    print_call(out, spans, names, call);
    out.text_at("k", "call");
    out.span(spans, span);
    out.close();
}

// Prints an increment or a decrement.
fn print_step<S: Sink>(
    out: &mut Printer<S>,
    spans: bool,
    names: &Names,
    word: &str,
    attributes: &Attributes,
    expression: &ExpressionNode,
    span: Span,
)
    ensures { PrintsStatement S.after out.old out.new spans span (stepped spans names.now word.now attributes.now expression.now) }
{
    out.begin();
    print_attributes(out, spans, names, "attrs", attributes);
    print_expression_at(out, spans, names, "expr", &expression.node, expression.span);
    out.text_at("k", word);
    out.span(spans, span);
    out.close();
}

// Prints a statement that is a word alone.
fn print_jump<S: Sink>(
    out: &mut Printer<S>,
    spans: bool,
    names: &Names,
    word: &str,
    attributes: &Attributes,
    span: Span,
)
    ensures { PrintsStatement S.after out.old out.new spans span (jumped spans names.now word.now attributes.now) }
{
    out.begin();
    print_attributes(out, spans, names, "attrs", attributes);
    out.text_at("k", word);
    out.span(spans, span);
    out.close();
}

/// Prints a body at `body`.
#[cycle(printing)]
pub(crate) fn print_body_at<S: Sink>(
    out: &mut Printer<S>,
    spans: bool,
    names: &Names,
    body: &CompoundStatement,
)
    ensures { PrintsMember S.after out.old out.new (codes "body") (node_in spans names.now a_body (compound_view body.now)) }
{
    out.key("body");
    out.begin();
    print_attributes(out, spans, names, "attrs", &body.attributes);
    print_statements(out, spans, names, &body.statements);
    out.close();
}

// Prints the statements of a body, unless there are none.
#[cycle(printing)]
fn print_statements<S: Sink>(
    out: &mut Printer<S>,
    spans: bool,
    names: &Names,
    nodes: &Vec<StatementNode>,
)
    ensures { PrintsList S.after out.old out.new (codes "stmts") (statement_items spans names.now nodes.now) }
{
    if !nodes.is_empty() {
        out.key("stmts");
        print_each_statement(out, spans, names, nodes);
    }
}

#[cycle(printing)]
fn print_each_statement<S: Sink>(
    out: &mut Printer<S>,
    spans: bool,
    names: &Names,
    nodes: &Vec<StatementNode>,
)
    ensures { Prints S.after out.old out.new (array (statement_items spans names.now nodes.now)) }
{
    out.begin_list();
    for node in nodes {
        print_statement(out, spans, names, &node.node, node.span);
    }
    out.close_list();
}

#[cycle(printing)]
fn print_elifs<S: Sink>(
    out: &mut Printer<S>,
    spans: bool,
    names: &Names,
    clauses: &Vec<ElseIfClause>,
)
    ensures { PrintsList S.after out.old out.new (codes "elifs") (elif_items spans names.now clauses.now) }
{
    if !clauses.is_empty() {
        out.key("elifs");
        print_each_elif(out, spans, names, clauses);
    }
}

#[cycle(printing)]
fn print_each_elif<S: Sink>(
    out: &mut Printer<S>,
    spans: bool,
    names: &Names,
    clauses: &Vec<ElseIfClause>,
)
    ensures { Prints S.after out.old out.new (array (elif_items spans names.now clauses.now)) }
{
    out.begin_list();
    for clause in clauses {
        print_elif(out, spans, names, clause);
    }
    out.close_list();
}

#[cycle(printing)]
fn print_elif<S: Sink>(out: &mut Printer<S>, spans: bool, names: &Names, clause: &ElseIfClause)
    ensures { Prints S.after out.old out.new (node_in spans names.now an_elif (else_if_view clause.now)) }
{
    out.begin();
    print_attributes(out, spans, names, "attrs", &clause.attributes);
    print_body_at(out, spans, names, &clause.body);
    print_expression_at(
        out,
        spans,
        names,
        "cond",
        &clause.expression.node,
        clause.expression.span,
    );
    out.close();
}

#[cycle(printing)]
fn print_optional_else<S: Sink>(
    out: &mut Printer<S>,
    spans: bool,
    names: &Names,
    clause: &Option<ElseClause>,
)
    ensures { PrintsOption S.after out.old out.new (codes "else") spans names.now an_else else_view clause.now }
{
    match clause {
        Some(clause) => {
            out.key("else");
            print_else(out, spans, names, clause);
        }
        None => {}
    }
}

#[cycle(printing)]
fn print_else<S: Sink>(out: &mut Printer<S>, spans: bool, names: &Names, clause: &ElseClause)
    ensures { Prints S.after out.old out.new (node_in spans names.now an_else (else_view clause.now)) }
{
    out.begin();
    print_attributes(out, spans, names, "attrs", &clause.attributes);
    print_body_at(out, spans, names, &clause.body);
    out.close();
}

#[cycle(printing)]
fn print_clauses<S: Sink>(
    out: &mut Printer<S>,
    spans: bool,
    names: &Names,
    clauses: &Vec<SwitchClause>,
)
    ensures { PrintsList S.after out.old out.new (codes "clauses") (clause_items spans names.now clauses.now) }
{
    if !clauses.is_empty() {
        out.key("clauses");
        print_each_clause(out, spans, names, clauses);
    }
}

#[cycle(printing)]
fn print_each_clause<S: Sink>(
    out: &mut Printer<S>,
    spans: bool,
    names: &Names,
    clauses: &Vec<SwitchClause>,
)
    ensures { Prints S.after out.old out.new (array (clause_items spans names.now clauses.now)) }
{
    out.begin_list();
    for clause in clauses {
        print_clause(out, spans, names, clause);
    }
    out.close_list();
}

#[cycle(printing)]
fn print_clause<S: Sink>(out: &mut Printer<S>, spans: bool, names: &Names, clause: &SwitchClause)
    ensures { Prints S.after out.old out.new (node_in spans names.now a_clause (clause_view clause.now)) }
{
    out.begin();
    print_attributes(out, spans, names, "attrs", &clause.attributes);
    print_body_at(out, spans, names, &clause.body);
    print_cases(out, spans, names, &clause.case_selectors);
    out.close();
}

fn print_cases<S: Sink>(
    out: &mut Printer<S>,
    spans: bool,
    names: &Names,
    selectors: &Vec<CaseSelector>,
)
    ensures { PrintsList S.after out.old out.new (codes "cases") (case_items spans names.now selectors.now) }
{
    if !selectors.is_empty() {
        out.key("cases");
        print_each_case(out, spans, names, selectors);
    }
}

fn print_each_case<S: Sink>(
    out: &mut Printer<S>,
    spans: bool,
    names: &Names,
    selectors: &Vec<CaseSelector>,
)
    ensures { Prints S.after out.old out.new (array (case_items spans names.now selectors.now)) }
{
    out.begin_list();
    for selector in selectors {
        print_case(out, spans, names, selector);
    }
    out.close_list();
}

fn print_case<S: Sink>(out: &mut Printer<S>, spans: bool, names: &Names, selector: &CaseSelector)
    ensures { Prints S.after out.old out.new (node_in spans names.now a_case (selector_view selector.now)) }
{
    match selector {
        CaseSelector::Default => {
            out.begin();
            out.text_at("k", "default");
            out.close();
        }
        CaseSelector::Expression(expression) => {
            print_expression(out, spans, names, &expression.node, expression.span)
        }
    }
}

#[cycle(printing)]
fn print_optional_continuing<S: Sink>(
    out: &mut Printer<S>,
    spans: bool,
    names: &Names,
    continuing: &Option<ContinuingStatement>,
)
    ensures { PrintsOption S.after out.old out.new (codes "continuing") spans names.now a_continuing continuing_view continuing.now }
{
    match continuing {
        Some(continuing) => {
            out.key("continuing");
            print_continuing(out, spans, names, continuing);
        }
        None => {}
    }
}

#[cycle(printing)]
fn print_continuing<S: Sink>(
    out: &mut Printer<S>,
    spans: bool,
    names: &Names,
    continuing: &ContinuingStatement,
)
    ensures { Prints S.after out.old out.new (node_in spans names.now a_continuing (continuing_view continuing.now)) }
{
    out.begin();
    print_attributes(out, spans, names, "attrs", &continuing.attributes);
    print_body_at(out, spans, names, &continuing.body);
    print_optional_break_if(out, spans, names, &continuing.break_if);
    out.close();
}

fn print_optional_break_if<S: Sink>(
    out: &mut Printer<S>,
    spans: bool,
    names: &Names,
    break_if: &Option<BreakIfStatement>,
)
    ensures { PrintsOption S.after out.old out.new (codes "break_if") spans names.now a_break_if break_if_view break_if.now }
{
    match break_if {
        Some(break_if) => {
            out.key("break_if");
            print_break_if(out, spans, names, break_if);
        }
        None => {}
    }
}

fn print_break_if<S: Sink>(
    out: &mut Printer<S>,
    spans: bool,
    names: &Names,
    break_if: &BreakIfStatement,
)
    ensures { Prints S.after out.old out.new (node_in spans names.now a_break_if (break_if_view break_if.now)) }
{
    out.begin();
    print_attributes(out, spans, names, "attrs", &break_if.attributes);
    print_expression_at(
        out,
        spans,
        names,
        "expr",
        &break_if.expression.node,
        break_if.expression.span,
    );
    out.close();
}

#[cycle(printing)]
fn print_optional_statement<S: Sink>(
    out: &mut Printer<S>,
    spans: bool,
    names: &Names,
    key: &str,
    statement: &Option<Box<StatementNode>>,
)
    ensures { PrintsOption S.after out.old out.new key.now spans names.now a_statement boxed_statement statement.now }
{
    match statement {
        Some(statement) => {
            out.key(key);
            print_statement(out, spans, names, &statement.node, statement.span);
        }
        None => {}
    }
}
