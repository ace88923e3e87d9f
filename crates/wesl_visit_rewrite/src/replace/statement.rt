//! What is replaced in statements.
ghost use Rattle.std.specs.Box.{box_value};
ghost use Rattle.wesl_visit_rewrite.specs.Replaced.{rule};
ghost use Rattle.wesl_visit_rewrite.specs.Went.{AllWent, WentTo};
ghost use Rattle.wesl_tree_syntax.specs.Tree.{clauses as clauses_kind, list};
ghost use Rattle.wesl_tree_syntax.specs.View.{assert_view, break_if_view, clause_view, compound_view, continuing_view, declaration_view, else_if_view, else_view, if_view, listed, optional, selector_view, statement_tree, statement_view};

use crate::replace::attribute::{at_attributes, at_optional_expression, at_optional_type};
use crate::replace::expression::{at_expression, in_call};
use wesl_tree_syntax::{
    BreakIfStatement, CaseSelector, CompoundStatement, ConstAssert, ContinuingStatement,
    Declaration, ElseClause, ElseIfClause, IfClause, Statement, StatementNode, SwitchClause,
};
use wesl_visit_collect::{Replace, Rewrite};

pub(crate) fn in_declaration<T: Replace, R: Rewrite<T>>(
    declaration: &mut Declaration,
    deep: bool,
    rewriter: &mut R,
    goes: bool,
) -> bool
    ensures { WentTo (rule T.Kind.sought R.rewrites deep) declaration_view goes declaration.old result declaration.new }
{
    let goes = at_attributes(&mut declaration.attributes, deep, rewriter, goes);
    let goes = at_optional_type(&mut declaration.ty, deep, rewriter, goes);
    at_optional_expression(&mut declaration.initializer, deep, rewriter, goes)
}

pub(crate) fn in_assert<T: Replace, R: Rewrite<T>>(
    assertion: &mut ConstAssert,
    deep: bool,
    rewriter: &mut R,
    goes: bool,
) -> bool
    ensures { WentTo (rule T.Kind.sought R.rewrites deep) assert_view goes assertion.old result assertion.new }
{
    let goes = at_attributes(&mut assertion.attributes, deep, rewriter, goes);
    at_expression(&mut assertion.expression, deep, rewriter, goes)
}

fn in_selector<T: Replace, R: Rewrite<T>>(
    selector: &mut CaseSelector,
    deep: bool,
    rewriter: &mut R,
    goes: bool,
) -> bool
    ensures { WentTo (rule T.Kind.sought R.rewrites deep) selector_view goes selector.old result selector.new }
{
    match selector {
        CaseSelector::Default => goes,
        CaseSelector::Expression(value) => at_expression(value, deep, rewriter, goes),
    }
}

fn in_selectors<T: Replace, R: Rewrite<T>>(
    selectors: &mut [CaseSelector],
    deep: bool,
    rewriter: &mut R,
    goes: bool,
) -> bool
    ensures { AllWent (rule T.Kind.sought R.rewrites deep) selector_view goes selectors.old result selectors.new }
{
    let mut goes = goes;
    for i in 0..selectors.len() {
        goes = in_selector(&mut selectors[i], deep, rewriter, goes);
    }
    goes
}

fn in_optional_break_if<T: Replace, R: Rewrite<T>>(
    break_if: &mut Option<BreakIfStatement>,
    deep: bool,
    rewriter: &mut R,
    goes: bool,
) -> bool
    ensures { WentTo (rule T.Kind.sought R.rewrites deep) (optional break_if_view) goes break_if.old result break_if.new }
{
    match break_if {
        None => goes,
        Some(break_if) => {
            let goes = at_attributes(&mut break_if.attributes, deep, rewriter, goes);
            at_expression(&mut break_if.expression, deep, rewriter, goes)
        }
    }
}

#[cycle(replacing_statements)]
pub(crate) fn in_statement<T: Replace, R: Rewrite<T>>(
    statement: &mut Statement,
    deep: bool,
    rewriter: &mut R,
    goes: bool,
) -> bool
    ensures { WentTo (rule T.Kind.sought R.rewrites deep) statement_view goes statement.old result statement.new }
{
    match statement {
        Statement::Void => goes,
        Statement::Compound(body) => in_compound(body, deep, rewriter, goes),
        Statement::Assignment {
            attributes,
            operator: _,
            lhs,
            rhs,
        } => {
            let goes = at_attributes(attributes, deep, rewriter, goes);
            let goes = at_expression(lhs, deep, rewriter, goes);
            at_expression(rhs, deep, rewriter, goes)
        }
        Statement::Increment {
            attributes,
            expression,
        } => {
            let goes = at_attributes(attributes, deep, rewriter, goes);
            at_expression(expression, deep, rewriter, goes)
        }
        Statement::Decrement {
            attributes,
            expression,
        } => {
            let goes = at_attributes(attributes, deep, rewriter, goes);
            at_expression(expression, deep, rewriter, goes)
        }
        Statement::If {
            attributes,
            if_clause,
            else_if_clauses,
            else_clause,
        } => {
            let goes = at_attributes(attributes, deep, rewriter, goes);
            let goes = in_if(if_clause, deep, rewriter, goes);
            let goes = in_else_ifs(else_if_clauses, deep, rewriter, goes);
            in_optional_else(else_clause, deep, rewriter, goes)
        }
        Statement::Switch {
            attributes,
            expression,
            body_attributes,
            clauses,
        } => {
            let goes = at_attributes(attributes, deep, rewriter, goes);
            let goes = at_expression(expression, deep, rewriter, goes);
            let goes = at_attributes(body_attributes, deep, rewriter, goes);
            in_clauses(clauses, deep, rewriter, goes)
        }
        Statement::Loop {
            attributes,
            body,
            continuing,
        } => {
            let goes = at_attributes(attributes, deep, rewriter, goes);
            let goes = in_compound(body, deep, rewriter, goes);
            in_optional_continuing(continuing, deep, rewriter, goes)
        }
        Statement::For {
            attributes,
            initializer,
            condition,
            update,
            body,
        } => {
            let goes = at_attributes(attributes, deep, rewriter, goes);
            let goes = at_optional_statement(initializer, deep, rewriter, goes);
            let goes = at_optional_expression(condition, deep, rewriter, goes);
            let goes = at_optional_statement(update, deep, rewriter, goes);
            in_compound(body, deep, rewriter, goes)
        }
        Statement::While {
            attributes,
            condition,
            body,
        } => {
            let goes = at_attributes(attributes, deep, rewriter, goes);
            let goes = at_expression(condition, deep, rewriter, goes);
            in_compound(body, deep, rewriter, goes)
        }
        Statement::Break { attributes } => at_attributes(attributes, deep, rewriter, goes),
        Statement::Continue { attributes } => at_attributes(attributes, deep, rewriter, goes),
        Statement::Return {
            attributes,
            expression,
        } => {
            let goes = at_attributes(attributes, deep, rewriter, goes);
            at_optional_expression(expression, deep, rewriter, goes)
        }
        Statement::Discard { attributes } => at_attributes(attributes, deep, rewriter, goes),
        Statement::FunctionCall { attributes, call } => {
            let goes = at_attributes(attributes, deep, rewriter, goes);
            in_call(call, deep, rewriter, goes)
        }
        Statement::ConstAssert(assertion) => in_assert(assertion, deep, rewriter, goes),
        Statement::Declaration(declaration) => in_declaration(declaration, deep, rewriter, goes),
    }
}

#[cycle(replacing_statements)]
fn at_optional_statement<T: Replace, R: Rewrite<T>>(
    node: &mut Option<Box<StatementNode>>,
    deep: bool,
    rewriter: &mut R,
    goes: bool,
) -> bool
    ensures { WentTo (rule T.Kind.sought R.rewrites deep) (optional (λ s. statement_tree (box_value s))) goes node.old result node.new }
{
    match node {
        None => goes,
        Some(node) => {
            // so that the box is followed once
            let node: &mut StatementNode = node;
            if T::takes_whole_statements(deep) {
                T::finish_statement(node, rewriter, goes)
            } else {
                let goes = in_statement(&mut node.node, deep, rewriter, goes);
                T::finish_statement(node, rewriter, goes)
            }
        }
    }
}

#[cycle(replacing_statements)]
fn at_statements<T: Replace, R: Rewrite<T>>(
    statements: &mut [StatementNode],
    deep: bool,
    rewriter: &mut R,
    goes: bool,
) -> bool
    ensures { AllWent (rule T.Kind.sought R.rewrites deep) statement_tree goes statements.old result statements.new }
{
    let mut goes = goes;
    for i in 0..statements.len() {
        let node = &mut statements[i];
        if T::takes_whole_statements(deep) {
            goes = T::finish_statement(node, rewriter, goes);
            continue;
        }
        goes = in_statement(&mut node.node, deep, rewriter, goes);
        goes = T::finish_statement(node, rewriter, goes);
    }
    goes
}

#[cycle(replacing_statements)]
pub(crate) fn in_compound<T: Replace, R: Rewrite<T>>(
    body: &mut CompoundStatement,
    deep: bool,
    rewriter: &mut R,
    goes: bool,
) -> bool
    ensures { WentTo (rule T.Kind.sought R.rewrites deep) compound_view goes body.old result body.new }
{
    let CompoundStatement {
        attributes,
        statements,
    } = body;
    let goes = at_attributes(attributes, deep, rewriter, goes);
    at_statements(statements, deep, rewriter, goes)
}

#[cycle(replacing_statements)]
fn in_if<T: Replace, R: Rewrite<T>>(
    clause: &mut IfClause,
    deep: bool,
    rewriter: &mut R,
    goes: bool,
) -> bool
    ensures { WentTo (rule T.Kind.sought R.rewrites deep) if_view goes clause.old result clause.new }
{
    let IfClause { expression, body } = clause;
    let goes = at_expression(expression, deep, rewriter, goes);
    in_compound(body, deep, rewriter, goes)
}

#[cycle(replacing_statements)]
fn in_else_if<T: Replace, R: Rewrite<T>>(
    clause: &mut ElseIfClause,
    deep: bool,
    rewriter: &mut R,
    goes: bool,
) -> bool
    ensures { WentTo (rule T.Kind.sought R.rewrites deep) else_if_view goes clause.old result clause.new }
{
    let ElseIfClause {
        attributes,
        expression,
        body,
    } = clause;
    let goes = at_attributes(attributes, deep, rewriter, goes);
    let goes = at_expression(expression, deep, rewriter, goes);
    in_compound(body, deep, rewriter, goes)
}

#[cycle(replacing_statements)]
fn in_else_ifs<T: Replace, R: Rewrite<T>>(
    clauses: &mut Vec<ElseIfClause>,
    deep: bool,
    rewriter: &mut R,
    goes: bool,
) -> bool
    ensures { WentTo (rule T.Kind.sought R.rewrites deep) (listed else_if_view list) goes clauses.old result clauses.new }
{
    each_else_if(clauses, deep, rewriter, goes)
}

#[cycle(replacing_statements)]
fn each_else_if<T: Replace, R: Rewrite<T>>(
    clauses: &mut [ElseIfClause],
    deep: bool,
    rewriter: &mut R,
    goes: bool,
) -> bool
    ensures { AllWent (rule T.Kind.sought R.rewrites deep) else_if_view goes clauses.old result clauses.new }
{
    let mut goes = goes;
    for i in 0..clauses.len() {
        goes = in_else_if(&mut clauses[i], deep, rewriter, goes);
    }
    goes
}

#[cycle(replacing_statements)]
fn in_optional_else<T: Replace, R: Rewrite<T>>(
    clause: &mut Option<ElseClause>,
    deep: bool,
    rewriter: &mut R,
    goes: bool,
) -> bool
    ensures { WentTo (rule T.Kind.sought R.rewrites deep) (optional else_view) goes clause.old result clause.new }
{
    match clause {
        None => goes,
        Some(clause) => {
            let ElseClause { attributes, body } = clause;
            let goes = at_attributes(attributes, deep, rewriter, goes);
            in_compound(body, deep, rewriter, goes)
        }
    }
}

#[cycle(replacing_statements)]
fn in_clause<T: Replace, R: Rewrite<T>>(
    clause: &mut SwitchClause,
    deep: bool,
    rewriter: &mut R,
    goes: bool,
) -> bool
    ensures { WentTo (rule T.Kind.sought R.rewrites deep) clause_view goes clause.old result clause.new }
{
    let SwitchClause {
        attributes,
        case_selectors,
        body,
    } = clause;
    let goes = at_attributes(attributes, deep, rewriter, goes);
    let goes = in_selectors(case_selectors, deep, rewriter, goes);
    in_compound(body, deep, rewriter, goes)
}

#[cycle(replacing_statements)]
fn in_clauses<T: Replace, R: Rewrite<T>>(
    clauses: &mut Vec<SwitchClause>,
    deep: bool,
    rewriter: &mut R,
    goes: bool,
) -> bool
    ensures { WentTo (rule T.Kind.sought R.rewrites deep) (listed clause_view clauses_kind) goes clauses.old result clauses.new }
{
    each_clause(clauses, deep, rewriter, goes)
}

#[cycle(replacing_statements)]
fn each_clause<T: Replace, R: Rewrite<T>>(
    clauses: &mut [SwitchClause],
    deep: bool,
    rewriter: &mut R,
    goes: bool,
) -> bool
    ensures { AllWent (rule T.Kind.sought R.rewrites deep) clause_view goes clauses.old result clauses.new }
{
    let mut goes = goes;
    for i in 0..clauses.len() {
        goes = in_clause(&mut clauses[i], deep, rewriter, goes);
    }
    goes
}

#[cycle(replacing_statements)]
fn in_optional_continuing<T: Replace, R: Rewrite<T>>(
    continuing: &mut Option<ContinuingStatement>,
    deep: bool,
    rewriter: &mut R,
    goes: bool,
) -> bool
    ensures { WentTo (rule T.Kind.sought R.rewrites deep) (optional continuing_view) goes continuing.old result continuing.new }
{
    match continuing {
        None => goes,
        Some(continuing) => {
            let ContinuingStatement {
                attributes,
                body,
                break_if,
            } = continuing;
            let goes = at_attributes(attributes, deep, rewriter, goes);
            let goes = in_compound(body, deep, rewriter, goes);
            in_optional_break_if(break_if, deep, rewriter, goes)
        }
    }
}
