//! Parentheses in statements.
ghost use Rattle.std.specs.Box.{box_value};
ghost use Rattle.wesl_tree_syntax.specs.Tree.{clauses as clauses_kind, list, statements as statements_kind};
ghost use Rattle.wesl_tree_syntax.specs.View.{break_if_view, clause_view, compound_view, continuing_view, else_if_view, else_view, if_view, listed, optional, selector_view, statement_tree, statement_view};
ghost use Rattle.wesl_text_guard.specs.Guards.{Guards};

use crate::guard::Guard;
use wesl_tree_syntax::{
    BreakIfStatement, CaseSelector, CompoundStatement, ContinuingStatement, ElseClause,
    ElseIfClause, IfClause, Statement, StatementNode, SwitchClause,
};

impl Guard {
    fn selector(&mut self, selector: &mut CaseSelector)
        ensures { Guards self.old self.new selector_view selector.old selector.new }
    {
        match selector {
            CaseSelector::Default => {}
            CaseSelector::Expression(value) => self.item(value),
        }
    }

    fn selectors(&mut self, selectors: &mut Vec<CaseSelector>)
        ensures { Guards self.old self.new (listed selector_view list) selectors.old selectors.new }
    {
        for selector in selectors.iter_mut() {
            self.selector(selector);
        }
    }

    fn optional_break_if(&mut self, break_if: &mut Option<BreakIfStatement>)
        ensures { Guards self.old self.new (optional break_if_view) break_if.old break_if.new }
    {
        match break_if {
            None => {}
            Some(break_if) => {
                self.attributes(&mut break_if.attributes);
                self.node(&mut break_if.expression);
            }
        }
    }

    #[cycle(statements)]
    fn statement(&mut self, statement: &mut Statement)
        ensures { Guards self.old self.new statement_view statement.old statement.new }
    {
        match statement {
            Statement::Void => {}
            Statement::Compound(body) => self.compound(body),
            Statement::Assignment {
                attributes,
                operator: _,
                lhs,
                rhs,
            } => {
                self.attributes(attributes);
                self.node(lhs);
                self.node(rhs);
            }
            Statement::Increment {
                attributes,
                expression,
            } => {
                self.attributes(attributes);
                self.node(expression);
            }
            Statement::Decrement {
                attributes,
                expression,
            } => {
                self.attributes(attributes);
                self.node(expression);
            }
            Statement::If {
                attributes,
                if_clause,
                else_if_clauses,
                else_clause,
            } => {
                self.attributes(attributes);
                self.if_clause(if_clause);
                self.else_if_clauses(else_if_clauses);
                self.optional_else(else_clause);
            }
            Statement::Switch {
                attributes,
                expression,
                body_attributes,
                clauses,
            } => {
                self.attributes(attributes);
                self.node(expression);
                self.attributes(body_attributes);
                self.clauses(clauses);
            }
            Statement::Loop {
                attributes,
                body,
                continuing,
            } => {
                self.attributes(attributes);
                self.compound(body);
                self.optional_continuing(continuing);
            }
            Statement::For {
                attributes,
                initializer,
                condition,
                update,
                body,
            } => {
                self.attributes(attributes);
                self.optional_statement(initializer);
                self.optional_node(condition);
                self.optional_statement(update);
                self.compound(body);
            }
            Statement::While {
                attributes,
                condition,
                body,
            } => {
                self.attributes(attributes);
                self.node(condition);
                self.compound(body);
            }
            Statement::Break { attributes } => self.attributes(attributes),
            Statement::Continue { attributes } => self.attributes(attributes),
            Statement::Return {
                attributes,
                expression,
            } => {
                self.attributes(attributes);
                self.optional_node(expression);
            }
            Statement::Discard { attributes } => self.attributes(attributes),
            Statement::FunctionCall { attributes, call } => {
                self.attributes(attributes);
                self.call(call);
            }
            Statement::ConstAssert(assertion) => self.assertion(assertion),
            Statement::Declaration(declaration) => self.declaration(declaration),
        }
    }

    #[cycle(statements)]
    fn statements(&mut self, nodes: &mut Vec<StatementNode>)
        ensures { Guards self.old self.new (listed statement_tree statements_kind) nodes.old nodes.new }
    {
        for node in nodes.iter_mut() {
            self.statement(&mut node.node);
        }
    }

    #[cycle(statements)]
    fn optional_statement(&mut self, node: &mut Option<Box<StatementNode>>)
        ensures { Guards self.old self.new (optional (λ s. statement_tree (box_value s))) node.old node.new }
    {
        match node {
            None => {}
            Some(node) => self.statement(&mut node.node),
        }
    }

    #[cycle(statements)]
    pub(crate) fn compound(&mut self, body: &mut CompoundStatement)
        ensures { Guards self.old self.new compound_view body.old body.new }
    {
        let CompoundStatement {
            attributes,
            statements,
        } = body;
        self.attributes(attributes);
        self.statements(statements);
    }

    #[cycle(statements)]
    fn if_clause(&mut self, clause: &mut IfClause)
        ensures { Guards self.old self.new if_view clause.old clause.new }
    {
        let IfClause { expression, body } = clause;
        self.node(expression);
        self.compound(body);
    }

    #[cycle(statements)]
    fn else_if_clauses(&mut self, clauses: &mut Vec<ElseIfClause>)
        ensures { Guards self.old self.new (listed else_if_view list) clauses.old clauses.new }
    {
        for clause in clauses.iter_mut() {
            self.else_if_clause(clause);
        }
    }

    #[cycle(statements)]
    fn else_if_clause(&mut self, clause: &mut ElseIfClause)
        ensures { Guards self.old self.new else_if_view clause.old clause.new }
    {
        let ElseIfClause {
            attributes,
            expression,
            body,
        } = clause;
        self.attributes(attributes);
        self.node(expression);
        self.compound(body);
    }

    #[cycle(statements)]
    fn optional_else(&mut self, clause: &mut Option<ElseClause>)
        ensures { Guards self.old self.new (optional else_view) clause.old clause.new }
    {
        match clause {
            None => {}
            Some(clause) => {
                let ElseClause { attributes, body } = clause;
                self.attributes(attributes);
                self.compound(body);
            }
        }
    }

    #[cycle(statements)]
    fn clauses(&mut self, clauses: &mut Vec<SwitchClause>)
        ensures { Guards self.old self.new (listed clause_view clauses_kind) clauses.old clauses.new }
    {
        for clause in clauses.iter_mut() {
            self.clause(clause);
        }
    }

    #[cycle(statements)]
    fn clause(&mut self, clause: &mut SwitchClause)
        ensures { Guards self.old self.new clause_view clause.old clause.new }
    {
        let SwitchClause {
            attributes,
            case_selectors,
            body,
        } = clause;
        self.attributes(attributes);
        self.selectors(case_selectors);
        self.compound(body);
    }

    #[cycle(statements)]
    fn optional_continuing(&mut self, continuing: &mut Option<ContinuingStatement>)
        ensures { Guards self.old self.new (optional continuing_view) continuing.old continuing.new }
    {
        match continuing {
            None => {}
            Some(continuing) => {
                let ContinuingStatement {
                    attributes,
                    body,
                    break_if,
                } = continuing;
                self.attributes(attributes);
                self.compound(body);
                self.optional_break_if(break_if);
            }
        }
    }
}
