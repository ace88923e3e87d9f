//! What is left of statements.
ghost use Rattle.std.specs.Prelude.{◌≡◌, map};
ghost use Rattle.std.specs.Box.{box_value};
ghost use Rattle.wesl_cond_chains.specs.Nodes.{answers};
ghost use Rattle.wesl_cond_chains.specs.Residual.{residual_tree};
ghost use Rattle.wesl_tree_syntax.specs.View.{clause_view, compound_view, continuing_view, else_if_view, else_view, optional, statement_tree, statement_view};

use wesl_cond_chains::{settle_both, settle_list};
use wesl_cond_features::Features;
use wesl_tree_names::Names;
use wesl_tree_syntax::{
    CompoundStatement, ContinuingStatement, ElseClause, ElseIfClause, Statement, StatementNode,
    SwitchClause,
};

/// Leaves what is left of a statement.
#[cycle(settling)]
fn settle_statement(statement: &mut Statement, names: &Names, features: &Features)
    ensures { statement_view statement.new ≡ residual_tree (answers names.now features.now) (statement_view statement.old) }
{
    match statement {
        Statement::Compound(body) => settle_body(body, names, features),
        Statement::If {
            attributes: _,
            if_clause,
            else_if_clauses,
            else_clause,
        } => {
            settle_body(&mut if_clause.body, names, features);
            settle_else_ifs(else_if_clauses, names, features);
            settle_else(else_clause, names, features);
        }
        Statement::Switch {
            attributes: _,
            expression: _,
            body_attributes: _,
            clauses,
        } => {
            settle_clauses(clauses, names, features);
            settle_list(clauses, names, features);
        }
        Statement::Loop {
            attributes: _,
            body,
            continuing,
        } => {
            settle_statements(&mut body.statements, names, features);
            settle_continuing(continuing, names, features);
            settle_both(&mut body.statements, continuing, names, features);
        }
        Statement::For {
            attributes: _,
            initializer,
            condition: _,
            update,
            body,
        } => {
            settle_optional(initializer, names, features);
            settle_optional(update, names, features);
            settle_body(body, names, features);
        }
        Statement::While {
            attributes: _,
            condition: _,
            body,
        } => settle_body(body, names, features),
        // no list lies in the others
        _ => {}
    }
}

/// Leaves what is left of each of several statements.
#[cycle(settling)]
fn settle_statements(nodes: &mut [StatementNode], names: &Names, features: &Features)
    ensures { map statement_tree nodes.new ≡ map (residual_tree (answers names.now features.now)) (map statement_tree nodes.old) }
{
    for node in nodes.iter_mut() {
        settle_statement(&mut node.node, names, features);
    }
}

/// Leaves what is left of a body.
#[cycle(settling)]
pub fn settle_body(body: &mut CompoundStatement, names: &Names, features: &Features)
    ensures { compound_view body.new ≡ residual_tree (answers names.now features.now) (compound_view body.old) }
{
    settle_statements(&mut body.statements, names, features);
    settle_list(&mut body.statements, names, features);
}

/// Leaves what is left of each `else if`.
#[cycle(settling)]
fn settle_else_ifs(clauses: &mut [ElseIfClause], names: &Names, features: &Features)
    ensures { map else_if_view clauses.new ≡ map (residual_tree (answers names.now features.now)) (map else_if_view clauses.old) }
{
    for clause in clauses.iter_mut() {
        settle_body(&mut clause.body, names, features);
    }
}

/// Leaves what is left of an `else`, if there is one.
#[cycle(settling)]
fn settle_else(clause: &mut Option<ElseClause>, names: &Names, features: &Features)
    ensures { optional else_view clause.new ≡ residual_tree (answers names.now features.now) (optional else_view clause.old) }
{
    if let Some(clause) = clause {
        settle_body(&mut clause.body, names, features);
    }
}

/// Leaves what is left of each clause of a `switch`.
#[cycle(settling)]
fn settle_clauses(clauses: &mut [SwitchClause], names: &Names, features: &Features)
    ensures { map clause_view clauses.new ≡ map (residual_tree (answers names.now features.now)) (map clause_view clauses.old) }
{
    for clause in clauses.iter_mut() {
        settle_body(&mut clause.body, names, features);
    }
}

/// Leaves what is left of an optional statement.
#[cycle(settling)]
fn settle_optional(node: &mut Option<Box<StatementNode>>, names: &Names, features: &Features)
    ensures { optional (λ s. statement_tree (box_value s)) node.new ≡ residual_tree (answers names.now features.now) (optional (λ s. statement_tree (box_value s)) node.old) }
{
    if let Some(node) = node {
        settle_statement(&mut node.node, names, features);
    }
}

/// Leaves what is left of a continuing block, if there is one.
#[cycle(settling)]
fn settle_continuing(
    continuing: &mut Option<ContinuingStatement>,
    names: &Names,
    features: &Features,
)
    ensures { optional continuing_view continuing.new ≡ residual_tree (answers names.now features.now) (optional continuing_view continuing.old) }
{
    if let Some(block) = continuing {
        let statements = &mut block.body.statements;
        settle_statements(statements, names, features);
        settle_both(statements, &mut block.break_if, names, features);
    }
}
