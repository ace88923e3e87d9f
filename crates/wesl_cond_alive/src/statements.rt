//! The identifiers of statements.
ghost use Rattle.std.specs.Prelude.{drop, map};
ghost use Rattle.std.specs.Box.{box_value};
ghost use Rattle.wesl_tree_syntax.specs.Tree.{before, clauses as clauses_kind, end, forest_of, list};
ghost use Rattle.wesl_tree_syntax.specs.View.{break_if_view, clause_view, compound_view, continuing_view, else_if_view, else_view, if_view, listed, optional, selector_view, statement_tree, statement_view};
ghost use Rattle.wesl_cond_alive.specs.Walk.{body as body_ahead, last as last_ahead};
ghost use Rattle.wesl_cond_alive.specs.Views.{here_view, spot_view};
ghost use Rattle.wesl_cond_alive.specs.Noted.{Walks, WalksIn, below, standing_by};

use crate::walk::{Here, Walk};
use wesl_tree_syntax::{
    BreakIfStatement, CaseSelector, CompoundStatement, ContinuingStatement, ElseClause,
    ElseIfClause, IfClause, Statement, StatementNode, SwitchClause,
};

impl<'a> Walk<'a> {
    fn selector(&mut self, here: &Here, selector: &'a CaseSelector)
        ensures { Walks (spot_view here.now) self.old self.new (selector_view selector.now) }
    {
        match selector {
            CaseSelector::Default => {}
            CaseSelector::Expression(e) => self.node(here, e),
        }
    }

    fn selectors(&mut self, here: &Here, selectors: &'a Vec<CaseSelector>)
        ensures { Walks (spot_view here.now) self.old self.new (listed selector_view list selectors.now) }
    {
        for selector in selectors {
            self.selector(here, selector);
        }
    }

    fn break_if(&mut self, here: &Here, break_if: &'a BreakIfStatement)
        ensures { Walks (here_view here.now) self.old self.new (break_if_view break_if.now) }
    {
        self.attributes(here, &break_if.attributes);
        self.node(here, &break_if.expression);
    }

    #[cycle(statements)]
    #[tactic(auto, using(wesl_tree_syntax::proofs::Views::view_if, wesl_tree_syntax::proofs::Views::view_switch, wesl_tree_syntax::proofs::Views::view_for))]
    pub fn statement(&mut self, here: &Here, statement: &'a Statement)
        ensures { Walks (here_view here.now) self.old self.new (statement_view statement.now) }
    {
        match statement {
            Statement::Void => {}
            Statement::Compound(body) => self.compound(here, body),
            Statement::Assignment {
                attributes,
                operator: _,
                lhs,
                rhs,
            } => {
                self.attributes(here, attributes);
                self.node(here, lhs);
                self.node(here, rhs);
            }
            Statement::Increment {
                attributes,
                expression,
            }
            | Statement::Decrement {
                attributes,
                expression,
            } => {
                self.attributes(here, attributes);
                self.node(here, expression);
            }
            Statement::If {
                attributes,
                if_clause,
                else_if_clauses,
                else_clause,
            } => {
                self.attributes(here, attributes);
                self.if_clause(here, if_clause);
                self.else_if_clauses(here, else_if_clauses);
                self.optional_else_clause(here, else_clause);
            }
            Statement::Switch {
                attributes,
                expression,
                body_attributes,
                clauses,
            } => {
                self.attributes(here, attributes);
                self.node(here, expression);
                self.attributes(&here.whole(), body_attributes);
                self.clauses(here, clauses);
            }
            Statement::Loop {
                attributes,
                body,
                continuing,
            } => {
                let places = self.judge_both(here.set, &body.statements, continuing);
                self.attributes(here, attributes);
                self.closed_body(here, &places, body);
                self.optional_continuing(here, &places, body.statements.len(), continuing);
            }
            Statement::For {
                attributes,
                initializer,
                condition,
                update,
                body,
            } => {
                self.attributes(here, attributes);
                self.optional_statement(&here.whole(), initializer);
                self.optional_node(here, condition);
                self.optional_statement(&here.whole(), update);
                self.compound(&here.whole(), body);
            }
            Statement::While {
                attributes,
                condition,
                body,
            } => {
                self.attributes(here, attributes);
                self.node(here, condition);
                self.compound(&here.whole(), body);
            }
            Statement::Break { attributes }
            | Statement::Continue { attributes }
            | Statement::Discard { attributes } => self.attributes(here, attributes),
            Statement::Return {
                attributes,
                expression,
            } => {
                self.attributes(here, attributes);
                self.optional_node(here, expression);
            }
            Statement::FunctionCall { attributes, call } => {
                self.attributes(here, attributes);
                self.call(here, call);
            }
            Statement::ConstAssert(assertion) => self.assertion(here, assertion),
            Statement::Declaration(declaration) => self.declaration(here, declaration),
        }
    }

    #[cycle(statements)]
    fn optional_statement(&mut self, here: &Here, node: &'a Option<Box<StatementNode>>)
        ensures { Walks (here_view here.now) self.old self.new (optional (λ s. statement_tree (box_value s)) node.now) }
    {
        match node {
            None => {}
            Some(node) => self.statement(here, &node.node),
        }
    }

    #[cycle(statements)]
    pub fn compound(&mut self, here: &Here, body: &'a CompoundStatement)
        ensures { Walks (here_view here.now) self.old self.new (compound_view body.now) }
    {
        self.attributes(here, &body.attributes);
        let places = self.judge_list(here.set, &body.statements);
        self.statements(here, &places, &body.statements);
    }

    /// Those of a body whose list is judged with what closes it.
    #[cycle(statements)]
    fn closed_body(&mut self, here: &Here, places: &[Here], body: &'a CompoundStatement)
        ensures { WalksIn (below here.now (body_ahead (map here_view places.now))) self.old self.new (before (compound_view body.now) end) }
    {
        self.attributes(&here.whole(), &body.attributes);
        self.statements(here, places, &body.statements);
    }

    /// Those of statements that stand in these places.
    #[cycle(statements)]
    fn statements(&mut self, here: &Here, places: &[Here], nodes: &'a Vec<StatementNode>)
        ensures { WalksIn (standing_by here.now places.now) self.old self.new (forest_of (map statement_tree nodes.now.items)) }
    {
        let whole = here.whole();
        for i in 0..nodes.len() {
            self.statement(&whole.place(places, i), &nodes[i].node);
        }
    }

    #[cycle(statements)]
    fn if_clause(&mut self, here: &Here, clause: &'a IfClause)
        ensures { Walks (spot_view here.now) self.old self.new (if_view clause.now) }
    {
        self.node(here, &clause.expression);
        self.compound(&here.whole(), &clause.body);
    }

    #[cycle(statements)]
    fn else_if_clause(&mut self, here: &Here, clause: &'a ElseIfClause)
        ensures { Walks (spot_view here.now) self.old self.new (else_if_view clause.now) }
    {
        self.attributes(&here.whole(), &clause.attributes);
        self.node(here, &clause.expression);
        self.compound(&here.whole(), &clause.body);
    }

    #[cycle(statements)]
    fn else_if_clauses(&mut self, here: &Here, all: &'a Vec<ElseIfClause>)
        ensures { Walks (spot_view here.now) self.old self.new (listed else_if_view list all.now) }
    {
        for clause in all {
            self.else_if_clause(here, clause);
        }
    }

    #[cycle(statements)]
    fn optional_else_clause(&mut self, here: &Here, clause: &'a Option<ElseClause>)
        ensures { Walks (spot_view here.now) self.old self.new (optional else_view clause.now) }
    {
        match clause {
            None => {}
            Some(clause) => self.else_clause(here, clause),
        }
    }

    #[cycle(statements)]
    fn else_clause(&mut self, here: &Here, clause: &'a ElseClause)
        ensures { Walks (spot_view here.now) self.old self.new (else_view clause.now) }
    {
        self.attributes(&here.whole(), &clause.attributes);
        self.compound(&here.whole(), &clause.body);
    }

    #[cycle(statements)]
    fn clause(&mut self, here: &Here, clause: &'a SwitchClause)
        ensures { Walks (here_view here.now) self.old self.new (clause_view clause.now) }
    {
        self.attributes(here, &clause.attributes);
        self.selectors(here, &clause.case_selectors);
        self.compound(&here.whole(), &clause.body);
    }

    #[cycle(statements)]
    fn clauses(&mut self, here: &Here, all: &'a Vec<SwitchClause>)
        ensures { Walks (spot_view here.now) self.old self.new (listed clause_view clauses_kind all.now) }
    {
        let whole = here.whole();
        let places = self.judge_list(here.set, all);
        for i in 0..all.len() {
            self.clause(&whole.place(&places, i), &all[i]);
        }
    }

    /// Those of the continuing block that closes a list of these places, after so many statements.
    #[cycle(statements)]
    fn optional_continuing(
        &mut self,
        here: &Here,
        places: &[Here],
        statements: usize,
        continuing: &'a Option<ContinuingStatement>,
    )
        ensures { WalksIn (below here.now (last_ahead (drop statements (map here_view places.now)))) self.old self.new (before (optional continuing_view continuing.now) end) }
    {
        match continuing {
            None => {}
            Some(continuing) => self.continuing(
                &here.whole().place(places, statements),
                continuing,
            ),
        }
    }

    #[cycle(statements)]
    fn continuing(&mut self, here: &Here, continuing: &'a ContinuingStatement)
        ensures { Walks (here_view here.now) self.old self.new (continuing_view continuing.now) }
    {
        let body = &continuing.body;
        let places = self.judge_both(here.set, &body.statements, &continuing.break_if);
        self.attributes(here, &continuing.attributes);
        self.closed_body(here, &places, body);
        self.optional_break_if(here, &places, body.statements.len(), &continuing.break_if);
    }

    /// Those of the `break if` that closes a list of these places, after so many statements.
    fn optional_break_if(
        &mut self,
        here: &Here,
        places: &[Here],
        statements: usize,
        break_if: &'a Option<BreakIfStatement>,
    )
        ensures { WalksIn (below here.now (last_ahead (drop statements (map here_view places.now)))) self.old self.new (before (optional break_if_view break_if.now) end) }
    {
        match break_if {
            None => {}
            Some(break_if) => self.break_if(&here.whole().place(places, statements), break_if),
        }
    }
}
