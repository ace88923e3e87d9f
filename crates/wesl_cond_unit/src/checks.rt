//! The faults of conditions inside statements. Nodes that do not stay are not entered.
ghost use Rattle.std.specs.Prelude.{◌≡◌, cond, Err, map, MatchResult};
ghost use Rattle.std.specs.Box.{box_value};
ghost use Rattle.wesl_cond_chains.specs.Chains.{staying};
ghost use Rattle.wesl_cond_chains.specs.Judging.{Checks};
ghost use Rattle.wesl_cond_chains.specs.Lists.{alone, element};
ghost use Rattle.wesl_cond_chains.specs.Nodes.{answers, optional_forest, replies};
ghost use Rattle.wesl_tree_syntax.specs.Tree.{before, branch, clauses as clauses_kind, end, forest_of};
ghost use Rattle.wesl_tree_syntax.specs.View.{clause_view, compound_view, continuing_view, else_if_view, else_view, optional, statement_tree, statement_view};

use std::alloc::Global;
use wesl_cond_chains::{check_both, check_list, closes, stays};
use wesl_cond_features::{Chain, Features};
use wesl_tree_names::{Diagnostic, Names};
use wesl_tree_syntax::{
    CompoundStatement, ContinuingStatement, ElseClause, ElseIfClause, Statement, StatementNode,
    SwitchClause,
};

/// Judges the conditions in a statement.
#[cycle(checking)]
fn check_statement(
    alloc: Global,
    statement: &Statement,
    names: &Names,
    features: &Features,
) -> Result<(), Diagnostic>
    ensures { Checks names.now (replies names.now features.now) (before (statement_view statement.now) end) result }
{
    match statement {
        Statement::Compound(body) => check_body(alloc, body, names, features),
        Statement::If {
            if_clause,
            else_if_clauses,
            else_clause,
            ..
        } => {
            let first = check_body(alloc, &if_clause.body, names, features);
            let others = check_else_ifs(alloc, else_if_clauses, names, features);
            let last = check_else(alloc, else_clause, names, features);
            first_refusal(first, others, last)
        }
        Statement::Switch { clauses, .. } => check_clauses(alloc, clauses, names, features),
        Statement::Loop {
            body,
            continuing,
            ..
        } => {
            let listed = check_both(alloc, &body.statements, continuing, names, features);
            let inside = check_statements(alloc, &body.statements, names, features);
            let stays = closes(&body.statements, continuing, names, features);
            let last = check_last(alloc, stays, continuing, names, features);
            first_refusal(listed, inside, last)
        }
        Statement::For {
            initializer,
            update,
            body,
            ..
        } => {
            let before = check_optional(alloc, initializer, names, features);
            let after = check_optional(alloc, update, names, features);
            let inside = check_body(alloc, body, names, features);
            first_refusal(before, after, inside)
        }
        Statement::While { body, .. } => check_body(alloc, body, names, features),
        // no list lies in the others
        _ => Ok(()),
    }
}

/// Judges the conditions in the statements of a list that stay.
#[cycle(checking)]
fn check_statements(
    alloc: Global,
    nodes: &Vec<StatementNode>,
    names: &Names,
    features: &Features,
) -> Result<(), Diagnostic>
    ensures { Checks names.now (replies names.now features.now) (alone (staying element (answers names.now features.now)) (forest_of (map statement_tree nodes.now.items))) result }
{
    let mut chain = Chain::new();
    for node in nodes {
        if stays(node, &mut chain, names, features) {
            match check_statement(alloc, &node.node, names, features) {
                Ok(()) => {}
                Err(fault) => return Err(fault),
            }
        }
    }
    Ok(())
}

/// Judges the conditions in a body.
#[cycle(checking)]
pub fn check_body(
    alloc: Global,
    body: &CompoundStatement,
    names: &Names,
    features: &Features,
) -> Result<(), Diagnostic>
    ensures { Checks names.now (replies names.now features.now) (before (compound_view body.now) end) result }
{
    match check_list(alloc, &body.statements, names, features) {
        Ok(()) => check_statements(alloc, &body.statements, names, features),
        Err(fault) => Err(fault),
    }
}

/// Judges the conditions in the bodies of `else if`.
#[cycle(checking)]
fn check_else_ifs(
    alloc: Global,
    clauses: &Vec<ElseIfClause>,
    names: &Names,
    features: &Features,
) -> Result<(), Diagnostic>
    ensures { Checks names.now (replies names.now features.now) (forest_of (map else_if_view clauses.now.items)) result }
{
    for clause in clauses {
        match check_body(alloc, &clause.body, names, features) {
            Ok(()) => {}
            Err(fault) => return Err(fault),
        }
    }
    Ok(())
}

/// Judges the conditions in the body of an `else`, if there is one.
#[cycle(checking)]
fn check_else(
    alloc: Global,
    clause: &Option<ElseClause>,
    names: &Names,
    features: &Features,
) -> Result<(), Diagnostic>
    ensures { Checks names.now (replies names.now features.now) (before (optional else_view clause.now) end) result }
{
    match clause {
        Some(clause) => check_body(alloc, &clause.body, names, features),
        None => Ok(()),
    }
}

/// Judges the conditions of clauses, and in those that stay.
#[cycle(checking)]
fn check_clauses(
    alloc: Global,
    clauses: &Vec<SwitchClause>,
    names: &Names,
    features: &Features,
) -> Result<(), Diagnostic>
    ensures { Checks names.now (replies names.now features.now) (before (branch clauses_kind (map clause_view clauses.now.items)) end) result }
{
    match check_list(alloc, clauses, names, features) {
        Ok(()) => {}
        Err(fault) => return Err(fault),
    }
    let mut chain = Chain::new();
    for clause in clauses {
        if stays(clause, &mut chain, names, features) {
            match check_body(alloc, &clause.body, names, features) {
                Ok(()) => {}
                Err(fault) => return Err(fault),
            }
        }
    }
    Ok(())
}

/// Judges the conditions in an optional statement.
#[cycle(checking)]
fn check_optional(
    alloc: Global,
    node: &Option<Box<StatementNode>>,
    names: &Names,
    features: &Features,
) -> Result<(), Diagnostic>
    ensures { Checks names.now (replies names.now features.now) (before (optional (λ s. statement_tree (box_value s)) node.now) end) result }
{
    match node {
        Some(node) => check_statement(alloc, &node.node, names, features),
        None => Ok(()),
    }
}

/// Judges the conditions in the continuing block that closes a list, if it stays there.
#[cycle(checking)]
fn check_last(
    alloc: Global,
    stays: bool,
    continuing: &Option<ContinuingStatement>,
    names: &Names,
    features: &Features,
) -> Result<(), Diagnostic>
    ensures { Checks names.now (replies names.now features.now) (cond stays (optional_forest continuing_view continuing.now) end) result }
{
    match continuing {
        Some(block) if stays => {
            let statements = &block.body.statements;
            match check_both(alloc, statements, &block.break_if, names, features) {
                Ok(()) => check_statements(alloc, statements, names, features),
                Err(fault) => Err(fault),
            }
        }
        Some(_) | None => Ok(()),
    }
}

/// The first refusal of three, if there is one.
fn first_refusal<E: Drop>(
    first: Result<(), E>,
    second: Result<(), E>,
    third: Result<(), E>,
) -> Result<(), E>
    ensures { MatchResult first (λ _. MatchResult second (λ _. result ≡ third) (λ e. result ≡ Err e)) (λ e. result ≡ Err e) }
{
    match first {
        Ok(()) => match second {
            Ok(()) => third,
            Err(fault) => Err(fault),
        },
        Err(fault) => Err(fault),
    }
}
