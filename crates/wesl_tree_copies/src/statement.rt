//! Copies of statements.
ghost use Rattle.std.specs.Box.{box_value};
ghost use Rattle.wesl_tree_syntax.specs.Tree.{clauses, list, statements};
ghost use Rattle.wesl_tree_syntax.specs.View.{break_if_view, clause_view, compound_view, continuing_view, else_if_view, else_view, if_view, listed, optional, selector_view, statement_tree, statement_view};
ghost use Rattle.wesl_tree_copies.specs.Copied.{Copies};

use crate::copying::Copying;
use wesl_tree_syntax::{
    BreakIfStatement, CaseSelector, CompoundStatement, ContinuingStatement, ElseClause,
    ElseIfClause, IfClause, Spanned, Statement, StatementNode, SwitchClause,
};

impl<'a> Copying<'a> {
    /// A copy of a selector of a clause.
    pub fn selector(&mut self, selector: &CaseSelector) -> CaseSelector
        ensures { Copies self.old self.new selector_view selector.now result }
    {
        match selector {
            CaseSelector::Default => CaseSelector::Default,
            CaseSelector::Expression(expression) => {
                CaseSelector::Expression(self.node(expression))
            }
        }
    }

    fn selectors(&mut self, selectors: &Vec<CaseSelector>) -> Vec<CaseSelector>
        ensures { Copies self.old self.new (listed selector_view list) selectors.now result }
    {
        let mut copies = self.list(selectors.len());
        for selector in selectors {
            let copy = self.selector(selector);
            self.push(&mut copies, copy);
        }
        copies
    }

    /// A copy of a `break if` statement.
    pub fn break_if(&mut self, break_if: &BreakIfStatement) -> BreakIfStatement
        ensures { Copies self.old self.new break_if_view break_if.now result }
    {
        BreakIfStatement {
            attributes: self.attributes(&break_if.attributes),
            expression: self.node(&break_if.expression),
        }
    }

    fn optional_break_if(&mut self, break_if: &Option<BreakIfStatement>) -> Option<BreakIfStatement>
        ensures { Copies self.old self.new (optional break_if_view) break_if.now result }
    {
        match break_if {
            None => None,
            Some(break_if) => Some(self.break_if(break_if)),
        }
    }

    /// A copy of a statement.
    #[cycle(statements)]
    pub fn statement(&mut self, statement: &Statement) -> Statement
        ensures { Copies self.old self.new statement_view statement.now result }
    {
        match statement {
            Statement::Void => Statement::Void,
            Statement::Compound(body) => Statement::Compound(self.compound(body)),
            Statement::Assignment {
                attributes,
                operator,
                lhs,
                rhs,
            } => Statement::Assignment {
                attributes: self.attributes(attributes),
                operator: *operator,
                lhs: self.node(lhs),
                rhs: self.node(rhs),
            },
            Statement::Increment {
                attributes,
                expression,
            } => Statement::Increment {
                attributes: self.attributes(attributes),
                expression: self.node(expression),
            },
            Statement::Decrement {
                attributes,
                expression,
            } => Statement::Decrement {
                attributes: self.attributes(attributes),
                expression: self.node(expression),
            },
            Statement::If {
                attributes,
                if_clause,
                else_if_clauses,
                else_clause,
            } => Statement::If {
                attributes: self.attributes(attributes),
                if_clause: self.if_clause(if_clause),
                else_if_clauses: self.else_if_clauses(else_if_clauses),
                else_clause: self.optional_else_clause(else_clause),
            },
            Statement::Switch {
                attributes,
                expression,
                body_attributes,
                clauses,
            } => Statement::Switch {
                attributes: self.attributes(attributes),
                expression: self.node(expression),
                body_attributes: self.attributes(body_attributes),
                clauses: self.clauses(clauses),
            },
            Statement::Loop {
                attributes,
                body,
                continuing,
            } => Statement::Loop {
                attributes: self.attributes(attributes),
                body: self.compound(body),
                continuing: self.optional_continuing(continuing),
            },
            Statement::For {
                attributes,
                initializer,
                condition,
                update,
                body,
            } => Statement::For {
                attributes: self.attributes(attributes),
                initializer: self.optional_statement(initializer),
                condition: self.optional_node(condition),
                update: self.optional_statement(update),
                body: self.compound(body),
            },
            Statement::While {
                attributes,
                condition,
                body,
            } => Statement::While {
                attributes: self.attributes(attributes),
                condition: self.node(condition),
                body: self.compound(body),
            },
            Statement::Break { attributes } => Statement::Break {
                attributes: self.attributes(attributes),
            },
            Statement::Continue { attributes } => Statement::Continue {
                attributes: self.attributes(attributes),
            },
            Statement::Return {
                attributes,
                expression,
            } => Statement::Return {
                attributes: self.attributes(attributes),
                expression: self.optional_node(expression),
            },
            Statement::Discard { attributes } => Statement::Discard {
                attributes: self.attributes(attributes),
            },
            Statement::FunctionCall { attributes, call } => Statement::FunctionCall {
                attributes: self.attributes(attributes),
                call: self.call(call),
            },
            Statement::ConstAssert(assertion) => {
                Statement::ConstAssert(self.assertion(assertion))
            }
            Statement::Declaration(declaration) => {
                Statement::Declaration(self.declaration(declaration))
            }
        }
    }

    /// A copy of a statement.
    pub fn statement_node(&mut self, node: &StatementNode) -> StatementNode
        ensures { Copies self.old self.new statement_tree node.now result }
    {
        Spanned {
            node: self.statement(&node.node),
            span: node.span,
        }
    }

    /// A copy of statements.
    #[cycle(statements)]
    pub fn statements(&mut self, nodes: &Vec<StatementNode>) -> Vec<StatementNode>
        ensures { Copies self.old self.new (listed statement_tree statements) nodes.now result }
    {
        let mut copies = self.list(nodes.len());
        for node in nodes {
            let copy = Spanned {
                node: self.statement(&node.node),
                span: node.span,
            };
            self.push(&mut copies, copy);
        }
        copies
    }

    #[cycle(statements)]
    fn optional_statement(
        &mut self,
        statement: &Option<Box<StatementNode>>,
    ) -> Option<Box<StatementNode>>
        ensures { Copies self.old self.new (optional (λ s. statement_tree (box_value s))) statement.now result }
    {
        match statement {
            None => None,
            Some(node) => {
                let inside = Spanned {
                    node: self.statement(&node.node),
                    span: node.span,
                };
                self.made(Box::new(self.alloc, inside))
            }
        }
    }

    /// A copy of a block.
    #[cycle(statements)]
    pub fn compound(&mut self, body: &CompoundStatement) -> CompoundStatement
        ensures { Copies self.old self.new compound_view body.now result }
    {
        CompoundStatement {
            attributes: self.attributes(&body.attributes),
            statements: self.statements(&body.statements),
        }
    }

    /// A copy of the first branch of an `if` statement.
    #[cycle(statements)]
    pub fn if_clause(&mut self, clause: &IfClause) -> IfClause
        ensures { Copies self.old self.new if_view clause.now result }
    {
        IfClause {
            expression: self.node(&clause.expression),
            body: self.compound(&clause.body),
        }
    }

    /// A copy of an `else if` branch.
    #[cycle(statements)]
    pub fn else_if_clause(&mut self, clause: &ElseIfClause) -> ElseIfClause
        ensures { Copies self.old self.new else_if_view clause.now result }
    {
        ElseIfClause {
            attributes: self.attributes(&clause.attributes),
            expression: self.node(&clause.expression),
            body: self.compound(&clause.body),
        }
    }

    #[cycle(statements)]
    fn else_if_clauses(&mut self, all: &Vec<ElseIfClause>) -> Vec<ElseIfClause>
        ensures { Copies self.old self.new (listed else_if_view list) all.now result }
    {
        let mut copies = self.list(all.len());
        for clause in all {
            let copy = self.else_if_clause(clause);
            self.push(&mut copies, copy);
        }
        copies
    }

    /// A copy of an `else` branch.
    #[cycle(statements)]
    pub fn else_clause(&mut self, clause: &ElseClause) -> ElseClause
        ensures { Copies self.old self.new else_view clause.now result }
    {
        ElseClause {
            attributes: self.attributes(&clause.attributes),
            body: self.compound(&clause.body),
        }
    }

    #[cycle(statements)]
    fn optional_else_clause(&mut self, clause: &Option<ElseClause>) -> Option<ElseClause>
        ensures { Copies self.old self.new (optional else_view) clause.now result }
    {
        match clause {
            None => None,
            Some(clause) => Some(self.else_clause(clause)),
        }
    }

    /// A copy of a clause of a `switch` statement.
    #[cycle(statements)]
    pub fn clause(&mut self, clause: &SwitchClause) -> SwitchClause
        ensures { Copies self.old self.new clause_view clause.now result }
    {
        SwitchClause {
            attributes: self.attributes(&clause.attributes),
            case_selectors: self.selectors(&clause.case_selectors),
            body: self.compound(&clause.body),
        }
    }

    #[cycle(statements)]
    fn clauses(&mut self, all: &Vec<SwitchClause>) -> Vec<SwitchClause>
        ensures { Copies self.old self.new (listed clause_view clauses) all.now result }
    {
        let mut copies = self.list(all.len());
        for clause in all {
            let copy = self.clause(clause);
            self.push(&mut copies, copy);
        }
        copies
    }

    /// A copy of a continuing block.
    #[cycle(statements)]
    pub fn continuing(&mut self, continuing: &ContinuingStatement) -> ContinuingStatement
        ensures { Copies self.old self.new continuing_view continuing.now result }
    {
        ContinuingStatement {
            attributes: self.attributes(&continuing.attributes),
            body: self.compound(&continuing.body),
            break_if: self.optional_break_if(&continuing.break_if),
        }
    }

    #[cycle(statements)]
    fn optional_continuing(
        &mut self,
        continuing: &Option<ContinuingStatement>,
    ) -> Option<ContinuingStatement>
        ensures { Copies self.old self.new (optional continuing_view) continuing.now result }
    {
        match continuing {
            None => None,
            Some(continuing) => Some(self.continuing(continuing)),
        }
    }
}
