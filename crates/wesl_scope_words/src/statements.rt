//! What is said of the names that statements declare.
ghost use Rattle.std.specs.Box.{box_value};
ghost use Rattle.std.specs.Prelude.{◌≡◌, map};
ghost use Rattle.wesl_tree_syntax.specs.Tree.{before, end, forest_of};
ghost use Rattle.wesl_tree_syntax.specs.View.{clause_view, compound_view, continuing_view, declaration_view, else_if_view, else_view, kind_tree, optional, statement_tree, statement_view};
ghost use Rattle.wesl_scope_words.specs.Said.{memory_words, words_of_var};
ghost use Rattle.wesl_scope_words.specs.Adds.{Adds};

use crate::sayings::{Memory, Sayings};
use wesl_tree::{
    CompoundStatement, ContinuingStatement, Declaration, DeclarationKind, ElseClause, ElseIfClause,
    Statement, StatementNode, SwitchClause,
};

/// What a declaration says of its name: a `var` perhaps an address space, any other nothing.
fn memory_of(kind: DeclarationKind) -> Memory
    ensures { memory_words result ≡ words_of_var (before (kind_tree kind) end) }
{
    match kind {
        DeclarationKind::Const | DeclarationKind::Override | DeclarationKind::Let => None,
        DeclarationKind::Var(memory) => memory,
    }
}

/// The name of a declaration.
pub fn in_declaration(declaration: &Declaration, names: &mut Sayings)
    ensures { Adds names.old (before (declaration_view declaration.now) end) names.new }
{
    names.name(memory_of(declaration.kind));
}

/// The names that a statement declares, and those in it.
#[cycle(statements)]
fn in_statement(statement: &Statement, names: &mut Sayings)
    ensures { Adds names.old (before (statement_view statement.now) end) names.new }
{
    match statement {
        Statement::Void => {}
        Statement::Compound(body) => in_compound(body, names),
        Statement::Assignment {
            attributes: _,
            operator: _,
            lhs: _,
            rhs: _,
        } => {}
        Statement::Increment {
            attributes: _,
            expression: _,
        } => {}
        Statement::Decrement {
            attributes: _,
            expression: _,
        } => {}
        Statement::If {
            attributes: _,
            if_clause,
            else_if_clauses,
            else_clause,
        } => {
            in_compound(&if_clause.body, names);
            in_else_ifs(else_if_clauses, names);
            in_optional_else(else_clause, names);
        }
        Statement::Switch {
            attributes: _,
            expression: _,
            body_attributes: _,
            clauses,
        } => in_clauses(clauses, names),
        Statement::Loop {
            attributes: _,
            body,
            continuing,
        } => {
            in_compound(body, names);
            in_optional_continuing(continuing, names);
        }
        Statement::For {
            attributes: _,
            initializer,
            condition: _,
            update,
            body,
        } => {
            in_optional_statement(initializer, names);
            in_optional_statement(update, names);
            in_compound(body, names);
        }
        Statement::While {
            attributes: _,
            condition: _,
            body,
        } => in_compound(body, names),
        Statement::Break { attributes: _ } => {}
        Statement::Continue { attributes: _ } => {}
        Statement::Discard { attributes: _ } => {}
        Statement::Return {
            attributes: _,
            expression: _,
        } => {}
        Statement::FunctionCall {
            attributes: _,
            call: _,
        } => {}
        Statement::ConstAssert(_) => {}
        Statement::Declaration(declaration) => in_declaration(declaration, names),
    }
}

/// Those of a statement, if there is one.
#[cycle(statements)]
fn in_optional_statement(node: &Option<Box<StatementNode>>, names: &mut Sayings)
    ensures { Adds names.old (before (optional (λ s. statement_tree (box_value s)) node.now) end) names.new }
{
    match node {
        None => {}
        Some(node) => in_statement(&node.node, names),
    }
}

/// Those of statements, in order.
#[cycle(statements)]
fn in_statements(nodes: &Vec<StatementNode>, names: &mut Sayings)
    ensures { Adds names.old (forest_of (map statement_tree nodes.now.items)) names.new }
{
    for node in nodes {
        in_statement(&node.node, names);
    }
}

/// Those of a body.
#[cycle(statements)]
pub fn in_compound(body: &CompoundStatement, names: &mut Sayings)
    ensures { Adds names.old (before (compound_view body.now) end) names.new }
{
    in_statements(&body.statements, names);
}

/// Those of the `else if` clauses of an `if`.
#[cycle(statements)]
fn in_else_ifs(clauses: &Vec<ElseIfClause>, names: &mut Sayings)
    ensures { Adds names.old (forest_of (map else_if_view clauses.now.items)) names.new }
{
    for clause in clauses {
        in_compound(&clause.body, names);
    }
}

/// Those of an `else`, if there is one.
#[cycle(statements)]
fn in_optional_else(clause: &Option<ElseClause>, names: &mut Sayings)
    ensures { Adds names.old (before (optional else_view clause.now) end) names.new }
{
    match clause {
        None => {}
        Some(clause) => in_compound(&clause.body, names),
    }
}

/// Those of the clauses of a `switch`.
#[cycle(statements)]
fn in_clauses(clauses: &Vec<SwitchClause>, names: &mut Sayings)
    ensures { Adds names.old (forest_of (map clause_view clauses.now.items)) names.new }
{
    for clause in clauses {
        in_compound(&clause.body, names);
    }
}

/// Those of the continuing block of a loop, if there is one.
#[cycle(statements)]
fn in_optional_continuing(continuing: &Option<ContinuingStatement>, names: &mut Sayings)
    ensures { Adds names.old (before (optional continuing_view continuing.now) end) names.new }
{
    match continuing {
        None => {}
        Some(continuing) => in_compound(&continuing.body, names),
    }
}
