//! The spans of the identifiers of statements.
ghost use Rattle.std.specs.Box.{box_value};
ghost use Rattle.wesl_tree_syntax.specs.Tree.{clauses, list, statements};
ghost use Rattle.wesl_tree_syntax.specs.View.{assert_view, break_if_view, clause_view, compound_view, continuing_view, declaration_view, else_if_view, else_view, if_view, listed, optional, selector_view, statement_tree, statement_view};
ghost use Rattle.wesl_scope_spans.specs.Adds.{Adds, AddsAnywhere};

use crate::attributes::in_attributes;
use crate::expressions::{in_call, in_node, in_optional_node, in_optional_type};
use crate::places::Places;
use wesl_tree::{
    BreakIfStatement, CaseSelector, CompoundStatement, ConstAssert, ContinuingStatement,
    Declaration, ElseClause, ElseIfClause, IfClause, Span, Statement, StatementNode, SwitchClause,
};

/// Those of a declaration of a value, in a function or in the module.
pub fn in_declaration(declaration: &Declaration, round: Span, places: &mut Places)
    ensures { Adds round places.old (declaration_view declaration.now) places.new }
{
    in_attributes(&declaration.attributes, places);
    places.meet(round);
    in_optional_type(&declaration.ty, round, places);
    in_optional_node(&declaration.initializer, places);
}

/// Those of a `const_assert`.
pub fn in_assertion(assertion: &ConstAssert, places: &mut Places)
    ensures { AddsAnywhere places.old (assert_view assertion.now) places.new }
{
    in_attributes(&assertion.attributes, places);
    in_node(&assertion.expression, places);
}

/// Those of a selector of a clause.
fn in_selector(selector: &CaseSelector, places: &mut Places)
    ensures { AddsAnywhere places.old (selector_view selector.now) places.new }
{
    match selector {
        CaseSelector::Default => {}
        CaseSelector::Expression(expression) => in_node(expression, places),
    }
}

/// Those of the selectors of a clause, in order.
fn in_selectors(selectors: &Vec<CaseSelector>, places: &mut Places)
    ensures { AddsAnywhere places.old (listed selector_view list selectors.now) places.new }
{
    for selector in selectors {
        in_selector(selector, places);
    }
}

/// Those of a `break if`, if there is one.
fn in_optional_break_if(break_if: &Option<BreakIfStatement>, places: &mut Places)
    ensures { AddsAnywhere places.old (optional break_if_view break_if.now) places.new }
{
    match break_if {
        None => {}
        Some(break_if) => {
            in_attributes(&break_if.attributes, places);
            in_node(&break_if.expression, places);
        }
    }
}

/// Those of a statement.
#[cycle(statements)]
fn in_statement(statement: &Statement, round: Span, places: &mut Places)
    ensures { Adds round places.old (statement_view statement.now) places.new }
{
    match statement {
        Statement::Void => {}
        Statement::Compound(body) => in_compound(body, places),
        Statement::Assignment {
            attributes,
            operator: _,
            lhs,
            rhs,
        } => {
            in_attributes(attributes, places);
            in_node(lhs, places);
            in_node(rhs, places);
        }
        Statement::Increment {
            attributes,
            expression,
        }
        | Statement::Decrement {
            attributes,
            expression,
        } => {
            in_attributes(attributes, places);
            in_node(expression, places);
        }
        Statement::If {
            attributes,
            if_clause,
            else_if_clauses,
            else_clause,
        } => {
            in_attributes(attributes, places);
            in_if(if_clause, places);
            in_else_ifs(else_if_clauses, places);
            in_optional_else(else_clause, places);
        }
        Statement::Switch {
            attributes,
            expression,
            body_attributes,
            clauses,
        } => {
            in_attributes(attributes, places);
            in_node(expression, places);
            in_attributes(body_attributes, places);
            in_clauses(clauses, places);
        }
        Statement::Loop {
            attributes,
            body,
            continuing,
        } => {
            in_attributes(attributes, places);
            in_compound(body, places);
            in_optional_continuing(continuing, places);
        }
        Statement::For {
            attributes,
            initializer,
            condition,
            update,
            body,
        } => {
            in_attributes(attributes, places);
            in_optional_statement(initializer, places);
            in_optional_node(condition, places);
            in_optional_statement(update, places);
            in_compound(body, places);
        }
        Statement::While {
            attributes,
            condition,
            body,
        } => {
            in_attributes(attributes, places);
            in_node(condition, places);
            in_compound(body, places);
        }
        Statement::Break { attributes }
        | Statement::Continue { attributes }
        | Statement::Discard { attributes } => in_attributes(attributes, places),
        Statement::Return {
            attributes,
            expression,
        } => {
            in_attributes(attributes, places);
            in_optional_node(expression, places);
        }
        Statement::FunctionCall { attributes, call } => {
            in_attributes(attributes, places);
            in_call(call, round, places);
        }
        Statement::ConstAssert(assertion) => in_assertion(assertion, places),
        Statement::Declaration(declaration) => in_declaration(declaration, round, places),
    }
}

/// Those of a statement, if there is one.
#[cycle(statements)]
fn in_optional_statement(node: &Option<Box<StatementNode>>, places: &mut Places)
    ensures { AddsAnywhere places.old (optional (λ s. statement_tree (box_value s)) node.now) places.new }
{
    match node {
        None => {}
        Some(node) => in_statement(&node.node, node.span, places),
    }
}

/// Those of statements, in order.
#[cycle(statements)]
fn in_statements(nodes: &Vec<StatementNode>, places: &mut Places)
    ensures { AddsAnywhere places.old (listed statement_tree statements nodes.now) places.new }
{
    for node in nodes {
        in_statement(&node.node, node.span, places);
    }
}

/// Those of a body.
#[cycle(statements)]
pub fn in_compound(body: &CompoundStatement, places: &mut Places)
    ensures { AddsAnywhere places.old (compound_view body.now) places.new }
{
    in_attributes(&body.attributes, places);
    in_statements(&body.statements, places);
}

/// Those of an `if` with its body.
#[cycle(statements)]
fn in_if(clause: &IfClause, places: &mut Places)
    ensures { AddsAnywhere places.old (if_view clause.now) places.new }
{
    in_node(&clause.expression, places);
    in_compound(&clause.body, places);
}

/// Those of the `else if` clauses of an `if`, in order.
#[cycle(statements)]
fn in_else_ifs(all: &Vec<ElseIfClause>, places: &mut Places)
    ensures { AddsAnywhere places.old (listed else_if_view list all.now) places.new }
{
    for clause in all {
        in_attributes(&clause.attributes, places);
        in_node(&clause.expression, places);
        in_compound(&clause.body, places);
    }
}

/// Those of an `else`, if there is one.
#[cycle(statements)]
fn in_optional_else(clause: &Option<ElseClause>, places: &mut Places)
    ensures { AddsAnywhere places.old (optional else_view clause.now) places.new }
{
    match clause {
        None => {}
        Some(clause) => {
            in_attributes(&clause.attributes, places);
            in_compound(&clause.body, places);
        }
    }
}

/// Those of the clauses of a `switch`, in order.
#[cycle(statements)]
fn in_clauses(all: &Vec<SwitchClause>, places: &mut Places)
    ensures { AddsAnywhere places.old (listed clause_view clauses all.now) places.new }
{
    for clause in all {
        in_attributes(&clause.attributes, places);
        in_selectors(&clause.case_selectors, places);
        in_compound(&clause.body, places);
    }
}

/// Those of the continuing block of a loop, if there is one.
#[cycle(statements)]
fn in_optional_continuing(continuing: &Option<ContinuingStatement>, places: &mut Places)
    ensures { AddsAnywhere places.old (optional continuing_view continuing.now) places.new }
{
    match continuing {
        None => {}
        Some(continuing) => {
            in_attributes(&continuing.attributes, places);
            in_compound(&continuing.body, places);
            in_optional_break_if(&continuing.break_if, places);
        }
    }
}
