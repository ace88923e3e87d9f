//! Copies of statements.
ghost use Rattle.wesl_tree_syntax.specs.Tree.{statement_node};
ghost use Rattle.wesl_tree_syntax.specs.View.{break_if_view, clause_view, compound_view, continuing_view, else_if_view, else_view, if_view, selector_view, statement_view};

use crate::clones::{Node, Placed};
use crate::copying::Copying;
use wesl_tree_syntax::{
    BreakIfStatement, CaseSelector, CompoundStatement, ContinuingStatement, ElseClause,
    ElseIfClause, IfClause, Statement, SwitchClause,
};

impl Node for Statement {
    ghost tree = { statement_view };

    fn copied(&self, copying: &mut Copying<'_>) -> Statement {
        copying.statement(self)
    }
}

impl Placed for Statement {
    ghost place = { statement_node };
}

impl Node for CompoundStatement {
    ghost tree = { compound_view };

    fn copied(&self, copying: &mut Copying<'_>) -> CompoundStatement {
        copying.compound(self)
    }
}

impl Node for IfClause {
    ghost tree = { if_view };

    fn copied(&self, copying: &mut Copying<'_>) -> IfClause {
        copying.if_clause(self)
    }
}

impl Node for ElseIfClause {
    ghost tree = { else_if_view };

    fn copied(&self, copying: &mut Copying<'_>) -> ElseIfClause {
        copying.else_if_clause(self)
    }
}

impl Node for ElseClause {
    ghost tree = { else_view };

    fn copied(&self, copying: &mut Copying<'_>) -> ElseClause {
        copying.else_clause(self)
    }
}

impl Node for CaseSelector {
    ghost tree = { selector_view };

    fn copied(&self, copying: &mut Copying<'_>) -> CaseSelector {
        copying.selector(self)
    }
}

impl Node for SwitchClause {
    ghost tree = { clause_view };

    fn copied(&self, copying: &mut Copying<'_>) -> SwitchClause {
        copying.clause(self)
    }
}

impl Node for ContinuingStatement {
    ghost tree = { continuing_view };

    fn copied(&self, copying: &mut Copying<'_>) -> ContinuingStatement {
        copying.continuing(self)
    }
}

impl Node for BreakIfStatement {
    ghost tree = { break_if_view };

    fn copied(&self, copying: &mut Copying<'_>) -> BreakIfStatement {
        copying.break_if(self)
    }
}
