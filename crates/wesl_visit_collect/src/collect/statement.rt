//! What is collected in statements.
ghost use Rattle.std.specs.Box.{box_value};
ghost use Rattle.std.specs.Prelude.{map};
ghost use Rattle.wesl_tree_syntax.specs.Tree.{before, end, forest_of};
ghost use Rattle.wesl_tree_syntax.specs.View.{assert_view, break_if_view, clause_view, compound_view, continuing_view, declaration_view, else_if_view, else_view, optional, selector_view, statement_tree, statement_view};
ghost use Rattle.wesl_visit_collect.specs.Adds.{Adds};

use crate::collect::attribute::{at_attributes, at_optional_expression, at_optional_type};
use crate::collect::expression::{at_expression, in_call};
use crate::collected::Collected;
use crate::kinds::{Kind, NodeRef};
use wesl_tree_syntax::{
    BreakIfStatement, CaseSelector, CompoundStatement, ConstAssert, ContinuingStatement,
    Declaration, ElseClause, ElseIfClause, Statement, StatementNode, SwitchClause,
};

/// Adds the nodes of a kind in a declaration, in document order.
pub fn in_declaration<'a, T: Kind>(declaration: &'a Declaration, found: &mut Collected<'a, T>)
    ensures { Adds T.sought T.view found.old (before (declaration_view declaration.now) end) found.new }
{
    at_attributes(&declaration.attributes, found);
    at_optional_type(&declaration.ty, found);
    at_optional_expression(&declaration.initializer, found);
}

/// Adds those in a `const_assert`.
pub fn in_assert<'a, T: Kind>(assertion: &'a ConstAssert, found: &mut Collected<'a, T>)
    ensures { Adds T.sought T.view found.old (before (assert_view assertion.now) end) found.new }
{
    at_attributes(&assertion.attributes, found);
    at_expression(&assertion.expression, found);
}

fn in_selector<'a, T: Kind>(selector: &'a CaseSelector, found: &mut Collected<'a, T>)
    ensures { Adds T.sought T.view found.old (before (selector_view selector.now) end) found.new }
{
    match selector {
        CaseSelector::Default => {}
        CaseSelector::Expression(value) => at_expression(value, found),
    }
}

fn in_selectors<'a, T: Kind>(selectors: &'a Vec<CaseSelector>, found: &mut Collected<'a, T>)
    ensures { Adds T.sought T.view found.old (forest_of (map selector_view selectors.now.items)) found.new }
{
    for selector in selectors {
        in_selector(selector, found);
    }
}

fn in_optional_break_if<'a, T: Kind>(
    break_if: &'a Option<BreakIfStatement>,
    found: &mut Collected<'a, T>,
)
    ensures { Adds T.sought T.view found.old (before (optional break_if_view break_if.now) end) found.new }
{
    match break_if {
        None => {}
        Some(break_if) => {
            at_attributes(&break_if.attributes, found);
            at_expression(&break_if.expression, found);
        }
    }
}

/// Adds those in a statement.
#[cycle(collecting_statements)]
pub fn in_statement<'a, T: Kind>(statement: &'a Statement, found: &mut Collected<'a, T>)
    ensures { Adds T.sought T.view found.old (before (statement_view statement.now) end) found.new }
{
    match statement {
        Statement::Void => {}
        Statement::Compound(body) => in_compound(body, found),
        Statement::Assignment {
            attributes,
            operator: _,
            lhs,
            rhs,
        } => {
            at_attributes(attributes, found);
            at_expression(lhs, found);
            at_expression(rhs, found);
        }
        Statement::Increment {
            attributes,
            expression,
        }
        | Statement::Decrement {
            attributes,
            expression,
        } => {
            at_attributes(attributes, found);
            at_expression(expression, found);
        }
        Statement::If {
            attributes,
            if_clause,
            else_if_clauses,
            else_clause,
        } => {
            at_attributes(attributes, found);
            at_expression(&if_clause.expression, found);
            in_compound(&if_clause.body, found);
            in_else_ifs(else_if_clauses, found);
            in_optional_else(else_clause, found);
        }
        Statement::Switch {
            attributes,
            expression,
            body_attributes,
            clauses,
        } => {
            at_attributes(attributes, found);
            at_expression(expression, found);
            at_attributes(body_attributes, found);
            in_clauses(clauses, found);
        }
        Statement::Loop {
            attributes,
            body,
            continuing,
        } => {
            at_attributes(attributes, found);
            in_compound(body, found);
            in_optional_continuing(continuing, found);
        }
        Statement::For {
            attributes,
            initializer,
            condition,
            update,
            body,
        } => {
            at_attributes(attributes, found);
            at_optional_statement(initializer, found);
            at_optional_expression(condition, found);
            at_optional_statement(update, found);
            in_compound(body, found);
        }
        Statement::While {
            attributes,
            condition,
            body,
        } => {
            at_attributes(attributes, found);
            at_expression(condition, found);
            in_compound(body, found);
        }
        Statement::Break { attributes }
        | Statement::Continue { attributes }
        | Statement::Discard { attributes } => at_attributes(attributes, found),
        Statement::Return {
            attributes,
            expression,
        } => {
            at_attributes(attributes, found);
            at_optional_expression(expression, found);
        }
        Statement::FunctionCall { attributes, call } => {
            at_attributes(attributes, found);
            in_call(call, found);
        }
        Statement::ConstAssert(assertion) => in_assert(assertion, found),
        Statement::Declaration(declaration) => in_declaration(declaration, found),
    }
}

#[cycle(collecting_statements)]
fn at_optional_statement<'a, T: Kind>(
    node: &'a Option<Box<StatementNode>>,
    found: &mut Collected<'a, T>,
)
    ensures { Adds T.sought T.view found.old (before (optional (λ s. statement_tree (box_value s)) node.now) end) found.new }
{
    match node {
        None => {}
        Some(node) => {
            if found.enter(NodeRef::Statement(node)) {
                in_statement(&node.node, found);
            }
        }
    }
}

#[cycle(collecting_statements)]
fn at_statements<'a, T: Kind>(statements: &'a Vec<StatementNode>, found: &mut Collected<'a, T>)
    ensures { Adds T.sought T.view found.old (forest_of (map statement_tree statements.now.items)) found.new }
{
    for node in statements {
        if !found.enter(NodeRef::Statement(node)) {
            continue;
        }
        in_statement(&node.node, found);
    }
}

#[cycle(collecting_statements)]
pub(crate) fn in_compound<'a, T: Kind>(body: &'a CompoundStatement, found: &mut Collected<'a, T>)
    ensures { Adds T.sought T.view found.old (before (compound_view body.now) end) found.new }
{
    at_attributes(&body.attributes, found);
    at_statements(&body.statements, found);
}

#[cycle(collecting_statements)]
fn in_else_ifs<'a, T: Kind>(clauses: &'a Vec<ElseIfClause>, found: &mut Collected<'a, T>)
    ensures { Adds T.sought T.view found.old (forest_of (map else_if_view clauses.now.items)) found.new }
{
    for clause in clauses {
        at_attributes(&clause.attributes, found);
        at_expression(&clause.expression, found);
        in_compound(&clause.body, found);
    }
}

/// Adds those in an `else` clause.
#[cycle(collecting_statements)]
pub fn in_else<'a, T: Kind>(clause: &'a ElseClause, found: &mut Collected<'a, T>)
    ensures { Adds T.sought T.view found.old (before (else_view clause.now) end) found.new }
{
    at_attributes(&clause.attributes, found);
    in_compound(&clause.body, found);
}

#[cycle(collecting_statements)]
fn in_optional_else<'a, T: Kind>(clause: &'a Option<ElseClause>, found: &mut Collected<'a, T>)
    ensures { Adds T.sought T.view found.old (before (optional else_view clause.now) end) found.new }
{
    match clause {
        None => {}
        Some(clause) => in_else(clause, found),
    }
}

#[cycle(collecting_statements)]
fn in_clauses<'a, T: Kind>(clauses: &'a Vec<SwitchClause>, found: &mut Collected<'a, T>)
    ensures { Adds T.sought T.view found.old (forest_of (map clause_view clauses.now.items)) found.new }
{
    for clause in clauses {
        at_attributes(&clause.attributes, found);
        in_selectors(&clause.case_selectors, found);
        in_compound(&clause.body, found);
    }
}

#[cycle(collecting_statements)]
fn in_optional_continuing<'a, T: Kind>(
    continuing: &'a Option<ContinuingStatement>,
    found: &mut Collected<'a, T>,
)
    ensures { Adds T.sought T.view found.old (before (optional continuing_view continuing.now) end) found.new }
{
    match continuing {
        None => {}
        Some(continuing) => {
            at_attributes(&continuing.attributes, found);
            in_compound(&continuing.body, found);
            in_optional_break_if(&continuing.break_if, found);
        }
    }
}
