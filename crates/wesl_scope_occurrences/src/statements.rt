//! The identifiers of statements.
ghost use Rattle.std.specs.Box.{box_value};
ghost use Rattle.wesl_tree_syntax.specs.Tree.{list, clauses, statements};
ghost use Rattle.wesl_tree_syntax.specs.View.{statement_view, compound_view, continuing_view, else_view, else_if_view, if_view, clause_view, selector_view, break_if_view, statement_tree, listed, optional};
ghost use Rattle.wesl_scope_occurrences.specs.Views.{here_view};
ghost use Rattle.wesl_scope_occurrences.specs.Noted.{Walks, WalksWithin};

use crate::handler::Handler;
use crate::here::Here;
use crate::walk::Walk;
use wesl_tree::{
    BreakIfStatement, CaseSelector, CompoundStatement, ContinuingStatement, ElseClause,
    ElseIfClause, IfClause, Statement, StatementNode, SwitchClause,
};

impl<'a, H: Handler> Walk<'a, H> {
    /// A selector of a clause.
    fn selector(&mut self, here: &Here, selector: &'a CaseSelector)
        ensures { Walks H.after (here_view here.now) self.old self.new (selector_view selector.now) }
    {
        match selector {
            CaseSelector::Default => {}
            CaseSelector::Expression(e) => self.node(here, e),
        }
    }

    /// The selectors of a clause, in order.
    fn selectors(&mut self, here: &Here, selectors: &'a Vec<CaseSelector>)
        ensures { Walks H.after (here_view here.now) self.old self.new (listed selector_view list selectors.now) }
    {
        for selector in selectors {
            self.selector(here, selector);
        }
    }

    /// A `break if`.
    fn break_if(&mut self, here: &Here, break_if: &'a BreakIfStatement)
        ensures { Walks H.after (here_view here.now) self.old self.new (break_if_view break_if.now) }
    {
        self.attributes(here, &break_if.attributes);
        self.node(here, &break_if.expression);
    }

    /// A `break if`, if there is one.
    fn optional_break_if(&mut self, here: &Here, break_if: &'a Option<BreakIfStatement>)
        ensures { Walks H.after (here_view here.now) self.old self.new (optional break_if_view break_if.now) }
    {
        match break_if {
            None => {}
            Some(break_if) => self.break_if(here, break_if),
        }
    }

    /// A statement.
    #[cycle(statements)]
    #[tactic(auto, using(wesl_tree_syntax::proofs::Views::view_if, wesl_tree_syntax::proofs::Views::view_switch, wesl_tree_syntax::proofs::Views::view_for))]
    pub fn statement(&mut self, here: &Here, statement: &'a Statement)
        ensures { Walks H.after (here_view here.now) self.old self.new (statement_view statement.now) }
    {
        match statement {
            Statement::Void => {}
            Statement::Compound(body) => {
                let here = self.open(here);
                self.compound(&here, body);
                self.close();
            }
            Statement::Assignment {
                attributes,
                operator: _,
                lhs,
                rhs,
            } => {
                self.attributes(here, attributes);
                self.node(here, lhs);
                self.node(here, rhs);
            }
            Statement::Increment {
                attributes,
                expression,
            }
            | Statement::Decrement {
                attributes,
                expression,
            } => {
                self.attributes(here, attributes);
                self.node(here, expression);
            }
            Statement::If {
                attributes,
                if_clause,
                else_if_clauses,
                else_clause,
            } => {
                self.attributes(here, attributes);
                self.if_clause(here, if_clause);
                self.else_if_clauses(here, else_if_clauses);
                self.optional_else_clause(here, else_clause);
            }
            Statement::Switch {
                attributes,
                expression,
                body_attributes,
                clauses,
            } => {
                self.attributes(here, attributes);
                self.node(here, expression);
                self.attributes(here, body_attributes);
                self.clauses(here, clauses);
            }
            Statement::Loop {
                attributes,
                body,
                continuing,
            } => {
                let here = self.open(here);
                self.attributes(&here, attributes);
                self.compound(&here, body);
                self.optional_continuing(&here.inside(), continuing);
                self.close();
            }
            Statement::For {
                attributes,
                initializer,
                condition,
                update,
                body,
            } => {
                let here = self.open(here);
                let inner = here.inside();
                let below = self.number(&inner);
                self.attributes(&here, attributes);
                self.optional_statement(&inner, initializer);
                self.optional_node(&inner, condition);
                self.update(&below.inside(), update);
                self.compound(&inner, body);
                self.close();
            }
            Statement::While {
                attributes,
                condition,
                body,
            } => {
                let here = self.open(here);
                self.attributes(&here, attributes);
                self.node(&here, condition);
                self.compound(&here, body);
                self.close();
            }
            Statement::Break { attributes }
            | Statement::Continue { attributes }
            | Statement::Discard { attributes } => self.attributes(here, attributes),
            Statement::Return {
                attributes,
                expression,
            } => {
                self.attributes(here, attributes);
                self.optional_node(here, expression);
            }
            Statement::FunctionCall { attributes, call } => {
                self.attributes(here, attributes);
                self.call(here, call);
            }
            Statement::ConstAssert(assertion) => self.assertion(here, assertion),
            Statement::Declaration(declaration) => self.declaration(here, declaration),
        }
    }

    /// A statement, if there is one.
    #[cycle(statements)]
    fn optional_statement(&mut self, here: &Here, node: &'a Option<Box<StatementNode>>)
        ensures { Walks H.after (here_view here.now) self.old self.new (optional (λ s. statement_tree (box_value s)) node.now) }
    {
        match node {
            None => {}
            Some(node) => self.statement(here, &node.node),
        }
    }

    /// The update of a loop, which stands in a block of its own.
    #[cycle(statements)]
    fn update(&mut self, here: &Here, node: &'a Option<Box<StatementNode>>)
        ensures { WalksWithin H.after (here_view here.now) self.old self.new (optional (λ s. statement_tree (box_value s)) node.now) }
    {
        self.enter();
        self.optional_statement(here, node);
        self.close();
    }

    /// A body: its attributes, then its statements in the block that its holder opens.
    #[cycle(statements)]
    #[tactic(auto, using(wesl_tree_syntax::proofs::Views::view_compound))]
    pub fn compound(&mut self, here: &Here, body: &'a CompoundStatement)
        ensures { Walks H.after (here_view here.now) self.old self.new (compound_view body.now) }
    {
        self.attributes(here, &body.attributes);
        self.statements(&here.inside(), &body.statements);
    }

    /// Statements, in order.
    #[cycle(statements)]
    fn statements(&mut self, here: &Here, nodes: &'a Vec<StatementNode>)
        ensures { Walks H.after (here_view here.now) self.old self.new (listed statement_tree statements nodes.now) }
    {
        for node in nodes {
            self.statement(here, &node.node);
        }
    }

    /// An `if` with its body.
    #[cycle(statements)]
    fn if_clause(&mut self, here: &Here, clause: &'a IfClause)
        ensures { Walks H.after (here_view here.now) self.old self.new (if_view clause.now) }
    {
        let here = self.open(here);
        self.node(&here, &clause.expression);
        self.compound(&here, &clause.body);
        self.close();
    }

    /// An `else if` with its body.
    #[cycle(statements)]
    fn else_if_clause(&mut self, here: &Here, clause: &'a ElseIfClause)
        ensures { Walks H.after (here_view here.now) self.old self.new (else_if_view clause.now) }
    {
        let here = self.open(here);
        self.attributes(&here, &clause.attributes);
        self.node(&here, &clause.expression);
        self.compound(&here, &clause.body);
        self.close();
    }

    /// The `else if` clauses of an `if`, in order.
    #[cycle(statements)]
    fn else_if_clauses(&mut self, here: &Here, all: &'a Vec<ElseIfClause>)
        ensures { Walks H.after (here_view here.now) self.old self.new (listed else_if_view list all.now) }
    {
        for clause in all {
            self.else_if_clause(here, clause);
        }
    }

    /// An `else`, if there is one.
    #[cycle(statements)]
    fn optional_else_clause(&mut self, here: &Here, clause: &'a Option<ElseClause>)
        ensures { Walks H.after (here_view here.now) self.old self.new (optional else_view clause.now) }
    {
        match clause {
            None => {}
            Some(clause) => self.else_clause(here, clause),
        }
    }

    /// An `else` with its body.
    #[cycle(statements)]
    fn else_clause(&mut self, here: &Here, clause: &'a ElseClause)
        ensures { Walks H.after (here_view here.now) self.old self.new (else_view clause.now) }
    {
        let here = self.open(here);
        self.attributes(&here, &clause.attributes);
        self.compound(&here, &clause.body);
        self.close();
    }

    /// A clause of a `switch`: its selectors, then its body.
    #[cycle(statements)]
    fn clause(&mut self, here: &Here, clause: &'a SwitchClause)
        ensures { Walks H.after (here_view here.now) self.old self.new (clause_view clause.now) }
    {
        let here = self.open(here);
        self.attributes(&here, &clause.attributes);
        self.selectors(&here, &clause.case_selectors);
        self.compound(&here, &clause.body);
        self.close();
    }

    /// The clauses of a `switch`, in order.
    #[cycle(statements)]
    fn clauses(&mut self, here: &Here, all: &'a Vec<SwitchClause>)
        ensures { Walks H.after (here_view here.now) self.old self.new (listed clause_view clauses all.now) }
    {
        for clause in all {
            self.clause(here, clause);
        }
    }

    /// The continuing block of a loop, if there is one, below the loop's body.
    #[cycle(statements)]
    fn optional_continuing(&mut self, here: &Here, continuing: &'a Option<ContinuingStatement>)
        ensures { Walks H.after (here_view here.now) self.old self.new (optional continuing_view continuing.now) }
    {
        match continuing {
            None => {}
            Some(continuing) => self.continuing(here, continuing),
        }
    }

    /// A continuing block: its body, then its `break if` below that.
    #[cycle(statements)]
    fn continuing(&mut self, here: &Here, continuing: &'a ContinuingStatement)
        ensures { Walks H.after (here_view here.now) self.old self.new (continuing_view continuing.now) }
    {
        let here = self.open(here);
        self.attributes(&here, &continuing.attributes);
        self.compound(&here, &continuing.body);
        self.optional_break_if(&here.inside(), &continuing.break_if);
        self.close();
    }
}
