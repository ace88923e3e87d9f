//! Nodes of statements.
ghost use Rattle.std.specs.Prelude.{◌≡◌, ℕ, IfOk, List, Some, map};
ghost use Rattle.std.specs.Box.{box_value};
ghost use Rattle.wesl_cond_chains.specs.Lists.{Element};
ghost use Rattle.wesl_tree_syntax.specs.Tree.{clauses as clauses_kind, list, statements as statements_kind};
ghost use Rattle.wesl_tree_syntax.specs.View.{clause_view, compound_view, continuing_view, else_if_view, else_view, if_view, listed, optional, selector_view, statement_tree, statement_view};
ghost use Rattle.wesl_cond_alive.specs.Sound.{outline_of};
ghost use Rattle.wesl_cond_alive.specs.Views.{outline_view};
ghost use Rattle.wesl_cond_positions.specs.Found.{Finds, IsFound, keeps_in_body};

use crate::lists::outlines_of_both;
use crate::lookup::Lookup;
use std::alloc::AllocError;
use wesl_cond_alive::Outline;
use wesl_cond_choices::choices::Choices;
use wesl_tree_syntax::{
    CaseSelector, CompoundStatement, ContinuingStatement, ElseClause, ElseIfClause, IfClause,
    Statement, StatementNode, SwitchClause,
};

impl<'a> Lookup<'a> {
    fn selectors(
        &self,
        selectors: &Vec<CaseSelector>,
        position: &[usize],
    ) -> Result<Choices, AllocError>
        ensures { Finds self.now position.now (listed selector_view list selectors.now) result }
    {
        match position {
            [] => self.all(),
            [number, ..] => self.all_if(*number < selectors.len()),
        }
    }

    #[cycle(statements)]
    fn statement(&self, statement: &Statement, position: &[usize]) -> Result<Choices, AllocError>
        ensures { Finds self.now position.now (statement_view statement.now) result }
    {
        match statement {
            Statement::Compound(body) => self.compound(body, position),
            Statement::If {
                attributes: _,
                if_clause,
                else_if_clauses,
                else_clause,
            } => match position {
                [] | [0, ..] => self.all(),
                [1, rest @ ..] => self.if_clause(if_clause, rest),
                [2, rest @ ..] => self.else_if_clauses(else_if_clauses, rest),
                [3, rest @ ..] => self.optional_else_clause(else_clause, rest),
                _ => self.none(),
            },
            Statement::Switch {
                attributes: _,
                expression: _,
                body_attributes: _,
                clauses,
            } => match position {
                [] | [0 | 1 | 2, ..] => self.all(),
                [3, rest @ ..] => self.clauses(clauses, rest),
                _ => self.none(),
            },
            Statement::Loop {
                attributes: _,
                body,
                continuing,
            } => {
                let nodes = outlines_of_both(self.alloc, &body.statements, continuing)?;
                match position {
                    [] | [0, ..] => self.all(),
                    [1, rest @ ..] => self.closed_body(body, &nodes, rest),
                    [2, rest @ ..] => {
                        let mut kept = self.numbered(&nodes, body.statements.len())?;
                        kept.and(&self.optional_continuing(continuing, rest)?);
                        Ok(kept)
                    }
                    _ => self.none(),
                }
            }
            Statement::For {
                attributes: _,
                initializer,
                condition,
                update,
                body,
            } => match position {
                [] | [0, ..] => self.all(),
                [1, rest @ ..] => self.optional_statement(initializer, rest),
                [2, rest @ ..] => self.all_if(condition.is_some() || rest.is_empty()),
                [3, rest @ ..] => self.optional_statement(update, rest),
                [4, rest @ ..] => self.compound(body, rest),
                _ => self.none(),
            },
            Statement::While {
                attributes: _,
                condition: _,
                body,
            } => match position {
                [] | [0 | 1, ..] => self.all(),
                [2, rest @ ..] => self.compound(body, rest),
                _ => self.none(),
            },
            Statement::Void
            | Statement::Assignment { .. }
            | Statement::Increment { .. }
            | Statement::Decrement { .. }
            | Statement::Break { .. }
            | Statement::Continue { .. }
            | Statement::Return { .. }
            | Statement::Discard { .. }
            | Statement::FunctionCall { .. }
            | Statement::ConstAssert(_)
            | Statement::Declaration(_) => self.all(),
        }
    }

    #[cycle(statements)]
    fn optional_statement(
        &self,
        statement: &Option<Box<StatementNode>>,
        position: &[usize],
    ) -> Result<Choices, AllocError>
        ensures { Finds self.now position.now (optional (λ s. statement_tree (box_value s)) statement.now) result }
    {
        match statement {
            None => self.all_if(position.is_empty()),
            Some(statement) => self.statement(&statement.node, position),
        }
    }

    /// Those of a body whose list stands alone.
    #[cycle(statements)]
    pub fn compound(
        &self,
        body: &CompoundStatement,
        position: &[usize],
    ) -> Result<Choices, AllocError>
        ensures { Finds self.now position.now (compound_view body.now) result }
    {
        match position {
            [] | [0, ..] => self.all(),
            [1, rest @ ..] => self.statements(&body.statements, rest),
            _ => self.none(),
        }
    }

    #[cycle(statements)]
    fn statements(
        &self,
        nodes: &Vec<StatementNode>,
        position: &[usize],
    ) -> Result<Choices, AllocError>
        ensures { Finds self.now position.now (listed statement_tree statements_kind nodes.now) result }
    {
        match position {
            [] => self.all(),
            [number, rest @ ..] => {
                if *number >= nodes.len() {
                    return self.none();
                }
                let mut kept = self.listed(nodes, *number)?;
                kept.and(&self.statement(&nodes[*number].node, rest)?);
                Ok(kept)
            }
        }
    }

    /// Those of a body whose list is judged with what closes it, by the outlines of both.
    #[cycle(statements)]
    fn closed_body(
        &self,
        body: &CompoundStatement,
        nodes: &[Outline<'_>],
        position: &[usize],
    ) -> Result<Choices, AllocError>
        ensures { (xs : List (Element ℕ)) → map outline_view nodes.now ≡ map outline_of xs → IfOk result (IsFound self.now (λ choice. keeps_in_body choice xs position.now (compound_view body.now))) }
    {
        match position {
            [] | [0, ..] | [1] => self.all(),
            [1, number, rest @ ..] => {
                if *number >= body.statements.len() {
                    return self.none();
                }
                let mut kept = self.numbered(nodes, *number)?;
                kept.and(&self.statement(&body.statements[*number].node, rest)?);
                Ok(kept)
            }
            _ => self.none(),
        }
    }

    #[cycle(statements)]
    fn if_clause(&self, clause: &IfClause, position: &[usize]) -> Result<Choices, AllocError>
        ensures { Finds self.now position.now (if_view clause.now) result }
    {
        match position {
            [] | [0, ..] => self.all(),
            [1, rest @ ..] => self.compound(&clause.body, rest),
            _ => self.none(),
        }
    }

    #[cycle(statements)]
    fn else_if_clauses(
        &self,
        clauses: &Vec<ElseIfClause>,
        position: &[usize],
    ) -> Result<Choices, AllocError>
        ensures { Finds self.now position.now (listed else_if_view list clauses.now) result }
    {
        match position {
            [] => self.all(),
            [number, rest @ ..] => {
                if *number >= clauses.len() {
                    return self.none();
                }
                self.else_if_clause(&clauses[*number], rest)
            }
        }
    }

    #[cycle(statements)]
    fn else_if_clause(
        &self,
        clause: &ElseIfClause,
        position: &[usize],
    ) -> Result<Choices, AllocError>
        ensures { Finds self.now position.now (else_if_view clause.now) result }
    {
        match position {
            [] | [0 | 1, ..] => self.all(),
            [2, rest @ ..] => self.compound(&clause.body, rest),
            _ => self.none(),
        }
    }

    #[cycle(statements)]
    fn optional_else_clause(
        &self,
        clause: &Option<ElseClause>,
        position: &[usize],
    ) -> Result<Choices, AllocError>
        ensures { Finds self.now position.now (optional else_view clause.now) result }
    {
        match clause {
            None => self.all_if(position.is_empty()),
            Some(clause) => self.else_clause(clause, position),
        }
    }

    #[cycle(statements)]
    fn else_clause(&self, clause: &ElseClause, position: &[usize]) -> Result<Choices, AllocError>
        ensures { Finds self.now position.now (else_view clause.now) result }
    {
        match position {
            [] | [0, ..] => self.all(),
            [1, rest @ ..] => self.compound(&clause.body, rest),
            _ => self.none(),
        }
    }

    #[cycle(statements)]
    fn clauses(
        &self,
        clauses: &Vec<SwitchClause>,
        position: &[usize],
    ) -> Result<Choices, AllocError>
        ensures { Finds self.now position.now (listed clause_view clauses_kind clauses.now) result }
    {
        match position {
            [] => self.all(),
            [number, rest @ ..] => {
                if *number >= clauses.len() {
                    return self.none();
                }
                let mut kept = self.listed(clauses, *number)?;
                kept.and(&self.clause(&clauses[*number], rest)?);
                Ok(kept)
            }
        }
    }

    #[cycle(statements)]
    fn clause(&self, clause: &SwitchClause, position: &[usize]) -> Result<Choices, AllocError>
        ensures { Finds self.now position.now (clause_view clause.now) result }
    {
        match position {
            [] | [0, ..] => self.all(),
            [1, rest @ ..] => self.selectors(&clause.case_selectors, rest),
            [2, rest @ ..] => self.compound(&clause.body, rest),
            _ => self.none(),
        }
    }

    #[cycle(statements)]
    fn optional_continuing(
        &self,
        continuing: &Option<ContinuingStatement>,
        position: &[usize],
    ) -> Result<Choices, AllocError>
        ensures { Finds self.now position.now (optional continuing_view continuing.now) result }
    {
        match continuing {
            None => self.all_if(position.is_empty()),
            Some(continuing) => self.continuing(continuing, position),
        }
    }

    #[cycle(statements)]
    fn continuing(
        &self,
        continuing: &ContinuingStatement,
        position: &[usize],
    ) -> Result<Choices, AllocError>
        ensures { Finds self.now position.now (continuing_view continuing.now) result }
    {
        let body = &continuing.body;
        let nodes = outlines_of_both(self.alloc, &body.statements, &continuing.break_if)?;
        match position {
            [] | [0, ..] => self.all(),
            [1, rest @ ..] => self.closed_body(body, &nodes, rest),
            [2, ..] => self.numbered(&nodes, body.statements.len()),
            _ => self.none(),
        }
    }
}
