//! All faults of conditions inside statements. Nodes that do not stay are not entered, and neither are those of a list that
//! has a fault.
ghost use Rattle.std.specs.Prelude.{cond, map};
ghost use Rattle.std.specs.Box.{box_value};
ghost use Rattle.wesl_cond_chains.specs.Nodes.{optional_forest};
ghost use Rattle.wesl_cond_faults.specs.Telling.{AddsInside, AddsStaying, AddsUnder};
ghost use Rattle.wesl_tree_syntax.specs.Tree.{branch, clauses as clauses_kind, end, forest_of};
ghost use Rattle.wesl_tree_syntax.specs.View.{clause_view, compound_view, continuing_view, else_if_view, else_view, optional, statement_tree, statement_view};

use crate::lists::{is_clear, tell_both, tell_list};
use crate::told::Told;
use wesl_cond_chains::{check_both, check_list, closes, stays};
use wesl_cond_features::{Chain, Features};
use wesl_tree_names::Names;
use wesl_tree_syntax::{
    CompoundStatement, ContinuingStatement, ElseClause, ElseIfClause, Statement, StatementNode,
    SwitchClause,
};

/// Tells the faults of conditions in a statement.
#[cycle(telling)]
fn tell_statement(told: &mut Told, statement: &Statement, names: &Names, features: &Features)
    ensures { AddsInside names.now features.now (statement_view statement.now) told.old told.new }
{
    match statement {
        Statement::Compound(body) => tell_body(told, body, names, features),
        Statement::If {
            if_clause,
            else_if_clauses,
            else_clause,
            ..
        } => {
            tell_body(told, &if_clause.body, names, features);
            tell_else_ifs(told, else_if_clauses, names, features);
            tell_else(told, else_clause, names, features);
        }
        Statement::Switch { clauses, .. } => tell_clauses(told, clauses, names, features),
        Statement::Loop {
            body,
            continuing,
            ..
        } => {
            let statements = &body.statements;
            if is_clear(check_both(told.alloc, statements, continuing, names, features)) {
                tell_statements(told, statements, names, features);
                let stays = closes(statements, continuing, names, features);
                tell_last(told, stays, continuing, names, features);
            } else {
                tell_both(told, statements, continuing, names, features);
            }
        }
        Statement::For {
            initializer,
            update,
            body,
            ..
        } => {
            tell_optional(told, initializer, names, features);
            tell_optional(told, update, names, features);
            tell_body(told, body, names, features);
        }
        Statement::While { body, .. } => tell_body(told, body, names, features),
        // no list lies in the others
        _ => {}
    }
}

/// Tells the faults of conditions in the statements of a list that stay.
#[cycle(telling)]
fn tell_statements(told: &mut Told, nodes: &Vec<StatementNode>, names: &Names, features: &Features)
    ensures { AddsStaying names.now features.now statement_tree nodes.now.items told.old told.new }
{
    let mut chain = Chain::new();
    for node in nodes {
        if stays(node, &mut chain, names, features) {
            tell_statement(told, &node.node, names, features);
        }
    }
}

/// Tells the faults of conditions in a body.
#[cycle(telling)]
pub fn tell_body(told: &mut Told, body: &CompoundStatement, names: &Names, features: &Features)
    ensures { AddsInside names.now features.now (compound_view body.now) told.old told.new }
{
    if is_clear(check_list(told.alloc, &body.statements, names, features)) {
        tell_statements(told, &body.statements, names, features);
    } else {
        tell_list(told, &body.statements, names, features);
    }
}

/// Tells the faults of conditions in the bodies of `else if`.
#[cycle(telling)]
fn tell_else_ifs(told: &mut Told, clauses: &Vec<ElseIfClause>, names: &Names, features: &Features)
    ensures { AddsUnder names.now features.now (forest_of (map else_if_view clauses.now.items)) told.old told.new }
{
    for clause in clauses {
        tell_body(told, &clause.body, names, features);
    }
}

/// Tells the faults of conditions in the body of an `else`, if there is one.
#[cycle(telling)]
fn tell_else(told: &mut Told, clause: &Option<ElseClause>, names: &Names, features: &Features)
    ensures { AddsInside names.now features.now (optional else_view clause.now) told.old told.new }
{
    match clause {
        Some(clause) => tell_body(told, &clause.body, names, features),
        None => {}
    }
}

/// Tells the faults of the conditions of clauses, or those in the clauses that stay.
#[cycle(telling)]
fn tell_clauses(told: &mut Told, clauses: &Vec<SwitchClause>, names: &Names, features: &Features)
    ensures { AddsInside names.now features.now (branch clauses_kind (map clause_view clauses.now.items)) told.old told.new }
{
    match check_list(told.alloc, clauses, names, features) {
        Ok(()) => {}
        Err(_) => return tell_list(told, clauses, names, features),
    }
    let mut chain = Chain::new();
    for clause in clauses {
        if stays(clause, &mut chain, names, features) {
            tell_body(told, &clause.body, names, features);
        }
    }
}

/// Tells the faults of conditions in an optional statement.
#[cycle(telling)]
fn tell_optional(
    told: &mut Told,
    node: &Option<Box<StatementNode>>,
    names: &Names,
    features: &Features,
)
    ensures { AddsInside names.now features.now (optional (λ s. statement_tree (box_value s)) node.now) told.old told.new }
{
    match node {
        Some(node) => tell_statement(told, &node.node, names, features),
        None => {}
    }
}

/// Tells the faults of conditions in the continuing block that closes a list, if it stays there.
#[cycle(telling)]
fn tell_last(
    told: &mut Told,
    stays: bool,
    continuing: &Option<ContinuingStatement>,
    names: &Names,
    features: &Features,
)
    ensures { AddsUnder names.now features.now (cond stays (optional_forest continuing_view continuing.now) end) told.old told.new }
{
    match continuing {
        Some(block) if stays => tell_block(told, block, names, features),
        Some(_) => {}
        None => {}
    }
}

/// Tells the faults of conditions in a continuing block. No list lies in its `break if`.
#[cycle(telling)]
fn tell_block(told: &mut Told, block: &ContinuingStatement, names: &Names, features: &Features)
    ensures { AddsInside names.now features.now (continuing_view block.now) told.old told.new }
{
    let statements = &block.body.statements;
    if is_clear(check_both(told.alloc, statements, &block.break_if, names, features)) {
        tell_statements(told, statements, names, features);
    } else {
        tell_both(told, statements, &block.break_if, names, features);
    }
}
