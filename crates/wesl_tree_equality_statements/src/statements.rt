//! Equality of statements and of what they are made of.
ghost use Rattle.std.specs.Prelude.{◌≡◌, ◌↔◌, IsTrue};
ghost use Rattle.wesl_tree_syntax.specs.View.{selector_view, break_if_view, statement_view, compound_view, continuing_view, else_view, else_if_view, if_view, clause_view};
ghost use Rattle.wesl_tree_equality.specs.Numbered.{numbered};

use wesl_tree_syntax::{
    BreakIfStatement, CaseSelector, CompoundStatement, ContinuingStatement, ElseClause,
    ElseIfClause, IfClause, Statement, SwitchClause,
};

/// Whether two statements are equal: they say the same.
#[tactic(auto, using(crate::proofs::OfStatements::statements_decided))]
pub fn equal_statements(statement: &Statement, other: &Statement) -> bool
    ensures { IsTrue result ↔ (numbered (statement_view statement.now) ≡ numbered (statement_view other.now)) }
{
    statement == other
}

/// Whether two compound statements are equal: their attributes and their statements are, in order.
#[tactic(auto, using(crate::proofs::OfStatements::compounds_decided))]
pub fn equal_compound_statements(body: &CompoundStatement, other: &CompoundStatement) -> bool
    ensures { IsTrue result ↔ (numbered (compound_view body.now) ≡ numbered (compound_view other.now)) }
{
    body == other
}

/// Whether two conditions with their bodies are equal: they say the same.
#[tactic(auto, using(crate::proofs::OfStatements::ifs_decided))]
pub fn equal_if_clauses(branch: &IfClause, other: &IfClause) -> bool
    ensures { IsTrue result ↔ (numbered (if_view branch.now) ≡ numbered (if_view other.now)) }
{
    branch == other
}

/// Whether two clauses of `else if` are equal: they say the same.
#[tactic(auto, using(crate::proofs::OfStatements::else_ifs_decided))]
pub fn equal_else_if_clauses(alternative: &ElseIfClause, other: &ElseIfClause) -> bool
    ensures { IsTrue result ↔ (numbered (else_if_view alternative.now) ≡ numbered (else_if_view other.now)) }
{
    alternative == other
}

/// Whether two clauses of `else` are equal: they say the same.
#[tactic(auto, using(crate::proofs::OfStatements::elses_decided))]
pub fn equal_else_clauses(otherwise: &ElseClause, other: &ElseClause) -> bool
    ensures { IsTrue result ↔ (numbered (else_view otherwise.now) ≡ numbered (else_view other.now)) }
{
    otherwise == other
}

/// Whether two values of `case` are equal: both are `default`, or they say the same.
#[tactic(auto, using(crate::proofs::OfSelectors::selector_decided))]
pub fn equal_case_selectors(selector: &CaseSelector, other: &CaseSelector) -> bool
    ensures { IsTrue result ↔ (numbered (selector_view selector.now) ≡ numbered (selector_view other.now)) }
{
    selector == other
}

/// Whether two clauses of `switch` are equal: they say the same, their values in order.
#[tactic(auto, using(crate::proofs::OfStatements::clauses_decided))]
pub fn equal_switch_clauses(clause: &SwitchClause, other: &SwitchClause) -> bool
    ensures { IsTrue result ↔ (numbered (clause_view clause.now) ≡ numbered (clause_view other.now)) }
{
    clause == other
}

/// Whether two statements of `break if` are equal: they say the same.
#[tactic(auto, using(crate::proofs::OfSelectors::break_if_decided))]
pub fn equal_break_if_statements(break_if: &BreakIfStatement, other: &BreakIfStatement) -> bool
    ensures { IsTrue result ↔ (numbered (break_if_view break_if.now) ≡ numbered (break_if_view other.now)) }
{
    break_if == other
}

/// Whether two continuing statements are equal: they say the same.
#[tactic(auto, using(crate::proofs::OfStatements::continuings_decided))]
pub fn equal_continuing_statements(
    continuing: &ContinuingStatement,
    other: &ContinuingStatement,
) -> bool
    ensures { IsTrue result ↔ (numbered (continuing_view continuing.now) ≡ numbered (continuing_view other.now)) }
{
    continuing == other
}
