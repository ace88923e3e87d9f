//! Statements.
ghost use Rattle.std.specs.Prelude.{◌≡◌, ◌&&◌};
ghost use Rattle.std.specs.Box.{box_value};
ghost use Rattle.wesl_tree_spelling.specs.Groups.{is_jump, is_step, is_action, is_if, is_switch, is_plain_loop, is_for};
ghost use Rattle.wesl_tree_syntax.specs.Tree.{clauses, list, statements};
ghost use Rattle.wesl_tree_syntax.specs.View.{statement_view, statement_tree, compound_view, continuing_view, else_view, else_if_view, if_view, clause_view, selector_view, break_if_view, listed, optional};

use crate::tables::Tables;
use wesl_tree_syntax::{
    BreakIfStatement, CaseSelector, CompoundStatement, ContinuingStatement, ElseClause,
    ElseIfClause, IfClause, Statement, StatementNode, SwitchClause,
};

impl Tables<'_> {
    ghost use Rattle.wesl_tree_spelling.specs.Tables.{same_in};

    #[tactic(auto, using(crate::proofs::Bools::steps))]
    fn same_selector(&self, left: &CaseSelector, right: &CaseSelector) -> bool
        ensures { result ≡ same_in self.now (selector_view left.now) (selector_view right.now) }
    {
        match (left, right) {
            (CaseSelector::Default, CaseSelector::Default) => true,
            (CaseSelector::Expression(left), CaseSelector::Expression(right)) => self.same_node(
                left, right,
            ),
            _ => false,
        }
    }

    fn same_selectors(&self, left: &Vec<CaseSelector>, right: &Vec<CaseSelector>) -> bool
        ensures { result ≡ same_in self.now (listed selector_view list left.now) (listed selector_view list right.now) }
    {
        if left.len() != right.len() {
            return false;
        }
        for i in 0..left.len() {
            if !self.same_selector(&left[i], &right[i]) {
                return false;
            }
        }
        true
    }

    #[tactic(auto, using(crate::proofs::Bools::steps))]
    fn same_optional_break_if(
        &self,
        left: &Option<BreakIfStatement>,
        right: &Option<BreakIfStatement>,
    ) -> bool
        ensures { result ≡ same_in self.now (optional break_if_view left.now) (optional break_if_view right.now) }
    {
        match (left, right) {
            (None, None) => true,
            (Some(left), Some(right)) => self.same_attributes(&left.attributes, &right.attributes)
                && self.same_node(&left.expression, &right.expression),
            _ => false,
        }
    }

    /// Whether the left one breaks, continues, returns or discards, and the right one is the same.
    #[tactic(auto, using(crate::proofs::Bools::steps))]
    fn same_jump(&self, left: &Statement, right: &Statement) -> bool
        ensures { result ≡ is_jump (statement_view left.now).label && same_in self.now (statement_view left.now) (statement_view right.now) }
    {
        match left {
            Statement::Break { attributes: left } => match right {
                Statement::Break { attributes: right } => self.same_attributes(left, right),
                _ => false,
            },
            Statement::Continue { attributes: left } => match right {
                Statement::Continue { attributes: right } => self.same_attributes(left, right),
                _ => false,
            },
            Statement::Return {
                attributes: left_attributes,
                expression: left_expression,
            } => match right {
                Statement::Return {
                    attributes: right_attributes,
                    expression: right_expression,
                } => {
                    self.same_attributes(left_attributes, right_attributes)
                        && self.same_optional_node(left_expression, right_expression)
                }
                _ => false,
            },
            Statement::Discard { attributes: left } => match right {
                Statement::Discard { attributes: right } => self.same_attributes(left, right),
                _ => false,
            },
            _ => false,
        }
    }

    /// Whether the left one counts up or down, and the right one is the same.
    #[tactic(auto, using(crate::proofs::Bools::steps))]
    fn same_step(&self, left: &Statement, right: &Statement) -> bool
        ensures { result ≡ is_step (statement_view left.now).label && same_in self.now (statement_view left.now) (statement_view right.now) }
    {
        match left {
            Statement::Increment {
                attributes: left_attributes,
                expression: left_expression,
            } => match right {
                Statement::Increment {
                    attributes: right_attributes,
                    expression: right_expression,
                } => {
                    self.same_attributes(left_attributes, right_attributes)
                        && self.same_node(left_expression, right_expression)
                }
                _ => false,
            },
            Statement::Decrement {
                attributes: left_attributes,
                expression: left_expression,
            } => match right {
                Statement::Decrement {
                    attributes: right_attributes,
                    expression: right_expression,
                } => {
                    self.same_attributes(left_attributes, right_attributes)
                        && self.same_node(left_expression, right_expression)
                }
                _ => false,
            },
            _ => false,
        }
    }

    /// Whether the left one assigns or calls, and the right one is the same.
    #[tactic(auto, using(crate::proofs::Bools::steps))]
    fn same_action(&self, left: &Statement, right: &Statement) -> bool
        ensures { result ≡ is_action (statement_view left.now).label && same_in self.now (statement_view left.now) (statement_view right.now) }
    {
        match left {
            Statement::Assignment {
                attributes: left_attributes,
                operator: left_operator,
                lhs: left_lhs,
                rhs: left_rhs,
            } => match right {
                Statement::Assignment {
                    attributes: right_attributes,
                    operator: right_operator,
                    lhs: right_lhs,
                    rhs: right_rhs,
                } => {
                    *left_operator == *right_operator
                        && (self.same_attributes(left_attributes, right_attributes)
                            && (self.same_node(left_lhs, right_lhs)
                                && self.same_node(left_rhs, right_rhs)))
                }
                _ => false,
            },
            Statement::FunctionCall {
                attributes: left_attributes,
                call: left_call,
            } => match right {
                Statement::FunctionCall {
                    attributes: right_attributes,
                    call: right_call,
                } => {
                    self.same_attributes(left_attributes, right_attributes)
                        && self.same_call(left_call, right_call)
                }
                _ => false,
            },
            _ => false,
        }
    }

    /// Whether the left one is an `if`, and the right one is the same.
    #[cycle(statement)]
    #[tactic(auto, using(crate::proofs::Bools::steps))]
    fn same_if_statement(&self, left: &Statement, right: &Statement) -> bool
        ensures { result ≡ is_if (statement_view left.now).label && same_in self.now (statement_view left.now) (statement_view right.now) }
    {
        let Statement::If {
            attributes: left_attributes,
            if_clause: left_if_clause,
            else_if_clauses: left_else_if_clauses,
            else_clause: left_else_clause,
        } = left
        else {
            return false;
        };
        let Statement::If {
            attributes: right_attributes,
            if_clause: right_if_clause,
            else_if_clauses: right_else_if_clauses,
            else_clause: right_else_clause,
        } = right
        else {
            return false;
        };
        self.same_attributes(left_attributes, right_attributes)
            && (self.same_if(left_if_clause, right_if_clause)
                && (self.same_else_ifs(left_else_if_clauses, right_else_if_clauses)
                    && self.same_optional_else(left_else_clause, right_else_clause)))
    }

    /// Whether the left one is a `switch`, and the right one is the same.
    #[cycle(statement)]
    #[tactic(auto, using(crate::proofs::Bools::steps))]
    fn same_switch(&self, left: &Statement, right: &Statement) -> bool
        ensures { result ≡ is_switch (statement_view left.now).label && same_in self.now (statement_view left.now) (statement_view right.now) }
    {
        let Statement::Switch {
            attributes: left_attributes,
            expression: left_expression,
            body_attributes: left_body_attributes,
            clauses: left_clauses,
        } = left
        else {
            return false;
        };
        let Statement::Switch {
            attributes: right_attributes,
            expression: right_expression,
            body_attributes: right_body_attributes,
            clauses: right_clauses,
        } = right
        else {
            return false;
        };
        self.same_attributes(left_attributes, right_attributes)
            && (self.same_node(left_expression, right_expression)
                && (self.same_attributes(left_body_attributes, right_body_attributes)
                    && self.same_clauses(left_clauses, right_clauses)))
    }

    /// Whether the left one is a `loop` or a `while`, and the right one is the same.
    #[cycle(statement)]
    #[tactic(auto, using(crate::proofs::Bools::steps))]
    fn same_plain_loop(&self, left: &Statement, right: &Statement) -> bool
        ensures { result ≡ is_plain_loop (statement_view left.now).label && same_in self.now (statement_view left.now) (statement_view right.now) }
    {
        match left {
            Statement::Loop {
                attributes: left_attributes,
                body: left_body,
                continuing: left_continuing,
            } => match right {
                Statement::Loop {
                    attributes: right_attributes,
                    body: right_body,
                    continuing: right_continuing,
                } => {
                    self.same_attributes(left_attributes, right_attributes)
                        && (self.same_compound(left_body, right_body)
                            && self.same_optional_continuing(left_continuing, right_continuing))
                }
                _ => false,
            },
            Statement::While {
                attributes: left_attributes,
                condition: left_condition,
                body: left_body,
            } => match right {
                Statement::While {
                    attributes: right_attributes,
                    condition: right_condition,
                    body: right_body,
                } => {
                    self.same_attributes(left_attributes, right_attributes)
                        && (self.same_node(left_condition, right_condition)
                            && self.same_compound(left_body, right_body))
                }
                _ => false,
            },
            _ => false,
        }
    }

    /// Whether the left one is a `for`, and the right one is the same.
    #[cycle(statement)]
    #[tactic(auto, using(crate::proofs::Bools::steps))]
    fn same_for(&self, left: &Statement, right: &Statement) -> bool
        ensures { result ≡ is_for (statement_view left.now).label && same_in self.now (statement_view left.now) (statement_view right.now) }
    {
        let Statement::For {
            attributes: left_attributes,
            initializer: left_initializer,
            condition: left_condition,
            update: left_update,
            body: left_body,
        } = left
        else {
            return false;
        };
        let Statement::For {
            attributes: right_attributes,
            initializer: right_initializer,
            condition: right_condition,
            update: right_update,
            body: right_body,
        } = right
        else {
            return false;
        };
        self.same_attributes(left_attributes, right_attributes)
            && (self.same_optional_statement(left_initializer, right_initializer)
                && (self.same_optional_node(left_condition, right_condition)
                    && (self.same_optional_statement(left_update, right_update)
                        && self.same_compound(left_body, right_body))))
    }

    #[cycle(statement)]
    #[tactic(auto, using(crate::proofs::Bools::steps))]
    fn same_statement(&self, left: &Statement, right: &Statement) -> bool
        ensures { result ≡ same_in self.now (statement_view left.now) (statement_view right.now) }
    {
        match left {
            Statement::Void => match right {
                Statement::Void => true,
                _ => false,
            },
            Statement::Compound(body) => match right {
                Statement::Compound(other) => self.same_compound(body, other),
                _ => false,
            },
            Statement::ConstAssert(assertion) => match right {
                Statement::ConstAssert(other) => self.same_assert(assertion, other),
                _ => false,
            },
            Statement::Declaration(declaration) => match right {
                Statement::Declaration(other) => self.same_declaration(declaration, other),
                _ => false,
            },
            Statement::Assignment { .. } | Statement::FunctionCall { .. } => {
                self.same_action(left, right)
            }
            Statement::Increment { .. } | Statement::Decrement { .. } => self.same_step(
                left, right,
            ),
            Statement::If { .. } => self.same_if_statement(left, right),
            Statement::Switch { .. } => self.same_switch(left, right),
            Statement::Loop { .. } | Statement::While { .. } => self.same_plain_loop(left, right),
            Statement::For { .. } => self.same_for(left, right),
            Statement::Break { .. }
            | Statement::Continue { .. }
            | Statement::Return { .. }
            | Statement::Discard { .. } => self.same_jump(left, right),
        }
    }

    #[cycle(statement)]
    #[tactic(auto, using(crate::proofs::Bools::steps))]
    fn same_optional_statement(
        &self,
        left: &Option<Box<StatementNode>>,
        right: &Option<Box<StatementNode>>,
    ) -> bool
        ensures { result ≡ same_in self.now (optional (λ s. statement_tree (box_value s)) left.now) (optional (λ s. statement_tree (box_value s)) right.now) }
    {
        match (left, right) {
            (None, None) => true,
            (Some(left), Some(right)) => self.same_span(left.span, right.span)
                && self.same_statement(&left.node, &right.node),
            _ => false,
        }
    }

    #[cycle(statement)]
    #[tactic(auto, using(crate::proofs::Bools::steps, wesl_tree_syntax::proofs::Views::view_compound))]
    pub(crate) fn same_compound(&self, left: &CompoundStatement, right: &CompoundStatement) -> bool
        ensures { result ≡ same_in self.now (compound_view left.now) (compound_view right.now) }
    {
        self.same_attributes(&left.attributes, &right.attributes)
            && self.same_statements(&left.statements, &right.statements)
    }

    #[cycle(statement)]
    #[tactic(auto, using(crate::proofs::Bools::steps))]
    fn same_statement_node(&self, left: &StatementNode, right: &StatementNode) -> bool
        ensures { result ≡ same_in self.now (statement_tree left.now) (statement_tree right.now) }
    {
        self.same_span(left.span, right.span) && self.same_statement(&left.node, &right.node)
    }

    #[cycle(statement)]
    fn same_statements(&self, left: &Vec<StatementNode>, right: &Vec<StatementNode>) -> bool
        ensures { result ≡ same_in self.now (listed statement_tree statements left.now) (listed statement_tree statements right.now) }
    {
        if left.len() != right.len() {
            return false;
        }
        for i in 0..left.len() {
            if !self.same_statement_node(&left[i], &right[i]) {
                return false;
            }
        }
        true
    }

    #[cycle(statement)]
    #[tactic(auto, using(crate::proofs::Bools::steps))]
    fn same_if(&self, left: &IfClause, right: &IfClause) -> bool
        ensures { result ≡ same_in self.now (if_view left.now) (if_view right.now) }
    {
        self.same_node(&left.expression, &right.expression)
            && self.same_compound(&left.body, &right.body)
    }

    #[cycle(statement)]
    #[tactic(auto, using(crate::proofs::Bools::steps))]
    fn same_else_if(&self, left: &ElseIfClause, right: &ElseIfClause) -> bool
        ensures { result ≡ same_in self.now (else_if_view left.now) (else_if_view right.now) }
    {
        self.same_attributes(&left.attributes, &right.attributes)
            && (self.same_node(&left.expression, &right.expression)
                && self.same_compound(&left.body, &right.body))
    }

    #[cycle(statement)]
    fn same_else_ifs(&self, left: &Vec<ElseIfClause>, right: &Vec<ElseIfClause>) -> bool
        ensures { result ≡ same_in self.now (listed else_if_view list left.now) (listed else_if_view list right.now) }
    {
        if left.len() != right.len() {
            return false;
        }
        for i in 0..left.len() {
            if !self.same_else_if(&left[i], &right[i]) {
                return false;
            }
        }
        true
    }

    #[cycle(statement)]
    #[tactic(auto, using(crate::proofs::Bools::steps))]
    fn same_else(&self, left: &ElseClause, right: &ElseClause) -> bool
        ensures { result ≡ same_in self.now (else_view left.now) (else_view right.now) }
    {
        self.same_attributes(&left.attributes, &right.attributes)
            && self.same_compound(&left.body, &right.body)
    }

    #[cycle(statement)]
    #[tactic(auto, using(crate::proofs::Bools::steps))]
    fn same_optional_else(&self, left: &Option<ElseClause>, right: &Option<ElseClause>) -> bool
        ensures { result ≡ same_in self.now (optional else_view left.now) (optional else_view right.now) }
    {
        match (left, right) {
            (None, None) => true,
            (Some(left), Some(right)) => self.same_else(left, right),
            _ => false,
        }
    }

    #[cycle(statement)]
    #[tactic(auto, using(crate::proofs::Bools::steps))]
    fn same_clause(&self, left: &SwitchClause, right: &SwitchClause) -> bool
        ensures { result ≡ same_in self.now (clause_view left.now) (clause_view right.now) }
    {
        self.same_attributes(&left.attributes, &right.attributes)
            && (self.same_selectors(&left.case_selectors, &right.case_selectors)
                && self.same_compound(&left.body, &right.body))
    }

    #[cycle(statement)]
    fn same_clauses(&self, left: &Vec<SwitchClause>, right: &Vec<SwitchClause>) -> bool
        ensures { result ≡ same_in self.now (listed clause_view clauses left.now) (listed clause_view clauses right.now) }
    {
        if left.len() != right.len() {
            return false;
        }
        for i in 0..left.len() {
            if !self.same_clause(&left[i], &right[i]) {
                return false;
            }
        }
        true
    }

    #[cycle(statement)]
    #[tactic(auto, using(crate::proofs::Bools::steps))]
    fn same_continuing(&self, left: &ContinuingStatement, right: &ContinuingStatement) -> bool
        ensures { result ≡ same_in self.now (continuing_view left.now) (continuing_view right.now) }
    {
        self.same_attributes(&left.attributes, &right.attributes)
            && (self.same_compound(&left.body, &right.body)
                && self.same_optional_break_if(&left.break_if, &right.break_if))
    }

    #[cycle(statement)]
    #[tactic(auto, using(crate::proofs::Bools::steps))]
    fn same_optional_continuing(
        &self,
        left: &Option<ContinuingStatement>,
        right: &Option<ContinuingStatement>,
    ) -> bool
        ensures { result ≡ same_in self.now (optional continuing_view left.now) (optional continuing_view right.now) }
    {
        match (left, right) {
            (None, None) => true,
            (Some(left), Some(right)) => self.same_continuing(left, right),
            _ => false,
        }
    }
}
