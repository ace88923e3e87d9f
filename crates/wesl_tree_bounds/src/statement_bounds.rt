//! Whether every identifier of a tree lies inside a table: statements.
ghost use Rattle.std.specs.Prelude.{◌≡◌};
ghost use Rattle.std.specs.Box.{box_value};
ghost use Rattle.wesl_tree_syntax.specs.Tree.{tree_below, list, clauses, statements};
ghost use Rattle.wesl_tree_syntax.specs.View.{statement_view, compound_view, continuing_view, else_view, else_if_view, if_view, clause_view, selector_view, break_if_view, statement_tree, listed, optional, function_view, global_view, declarations_tree};

use crate::bounds::{call_is_below, node_is_below};
use crate::parts_bounds::{
    alias_is_below, assert_is_below, attributes_are_below, declaration_is_below,
    optional_node_is_below, optional_type_is_below, parameters_are_below, struct_is_below,
};
use wesl_tree_syntax::{
    BreakIfStatement, CaseSelector, CompoundStatement, ContinuingStatement, ElseClause,
    ElseIfClause, Function, GlobalDeclaration, IfClause, Spanned, Statement, StatementNode,
    SwitchClause,
};

#[tactic(auto, using(crate::proofs::Below::steps))]
pub fn selector_is_below(bound: usize, selector: &CaseSelector) -> bool
    ensures { result ≡ tree_below bound (selector_view selector.now) }
{
    match selector {
        CaseSelector::Default => true,
        CaseSelector::Expression(e) => node_is_below(bound, e),
    }
}

pub fn selectors_are_below(bound: usize, selectors: &Vec<CaseSelector>) -> bool
    ensures { result ≡ tree_below bound (listed selector_view list selectors.now) }
{
    for selector in selectors {
        if !selector_is_below(bound, selector) {
            return false;
        }
    }
    true
}

#[tactic(auto, using(crate::proofs::Below::steps))]
pub fn break_if_is_below(bound: usize, break_if: &BreakIfStatement) -> bool
    ensures { result ≡ tree_below bound (break_if_view break_if.now) }
{
    attributes_are_below(bound, &break_if.attributes) && node_is_below(bound, &break_if.expression)
}

#[cycle(bounds)]
#[tactic(auto, using(crate::proofs::Below::steps))]
pub fn statement_is_below(bound: usize, statement: &Statement) -> bool
    ensures { result ≡ tree_below bound (statement_view statement.now) }
{
    match statement {
        Statement::Void => true,
        Statement::Compound(body) => compound_is_below(bound, body),
        Statement::Assignment {
            attributes,
            operator: _,
            lhs,
            rhs,
        } => {
            attributes_are_below(bound, attributes)
                && node_is_below(bound, lhs)
                && node_is_below(bound, rhs)
        }
        Statement::Increment {
            attributes,
            expression,
        }
        | Statement::Decrement {
            attributes,
            expression,
        } => { attributes_are_below(bound, attributes) && node_is_below(bound, expression) }
        Statement::If {
            attributes,
            if_clause,
            else_if_clauses,
            else_clause,
        } => {
            attributes_are_below(bound, attributes)
                && if_is_below(bound, if_clause)
                && else_ifs_are_below(bound, else_if_clauses)
                && match else_clause {
                    None => true,
                    Some(clause) => else_is_below(bound, clause),
                }
        }
        Statement::Switch {
            attributes,
            expression,
            body_attributes,
            clauses,
        } => {
            attributes_are_below(bound, attributes)
                && node_is_below(bound, expression)
                && attributes_are_below(bound, body_attributes)
                && clauses_are_below(bound, clauses)
        }
        Statement::Loop {
            attributes,
            body,
            continuing,
        } => {
            attributes_are_below(bound, attributes)
                && compound_is_below(bound, body)
                && match continuing {
                    None => true,
                    Some(continuing) => continuing_is_below(bound, continuing),
                }
        }
        Statement::For {
            attributes,
            initializer,
            condition,
            update,
            body,
        } => {
            attributes_are_below(bound, attributes)
                && optional_statement_is_below(bound, initializer)
                && optional_node_is_below(bound, condition)
                && optional_statement_is_below(bound, update)
                && compound_is_below(bound, body)
        }
        Statement::While {
            attributes,
            condition,
            body,
        } => {
            attributes_are_below(bound, attributes)
                && node_is_below(bound, condition)
                && compound_is_below(bound, body)
        }
        Statement::Break { attributes }
        | Statement::Continue { attributes }
        | Statement::Discard { attributes } => attributes_are_below(bound, attributes),
        Statement::Return {
            attributes,
            expression,
        } => {
            attributes_are_below(bound, attributes) && optional_node_is_below(bound, expression)
        }
        Statement::FunctionCall { attributes, call } => {
            attributes_are_below(bound, attributes) && call_is_below(bound, call)
        }
        Statement::ConstAssert(assertion) => assert_is_below(bound, assertion),
        Statement::Declaration(declaration) => declaration_is_below(bound, declaration),
    }
}

#[cycle(bounds)]
#[tactic(auto, using(crate::proofs::Below::steps))]
pub fn optional_statement_is_below(bound: usize, node: &Option<Box<StatementNode>>) -> bool
    ensures { result ≡ tree_below bound (optional (λ s. statement_tree (box_value s)) node.now) }
{
    match node {
        None => true,
        Some(node) => statement_is_below(bound, &node.node),
    }
}

#[cycle(bounds)]
#[tactic(auto, using(crate::proofs::Below::steps, wesl_tree_syntax::proofs::Views::view_compound))]
pub fn compound_is_below(bound: usize, body: &CompoundStatement) -> bool
    ensures { result ≡ tree_below bound (compound_view body.now) }
{
    attributes_are_below(bound, &body.attributes) && statements_are_below(bound, &body.statements)
}

#[cycle(bounds)]
pub fn statements_are_below(bound: usize, nodes: &Vec<StatementNode>) -> bool
    ensures { result ≡ tree_below bound (listed statement_tree statements nodes.now) }
{
    for node in nodes {
        if !statement_is_below(bound, &node.node) {
            return false;
        }
    }
    true
}

#[cycle(bounds)]
#[tactic(auto, using(crate::proofs::Below::steps))]
pub fn if_is_below(bound: usize, clause: &IfClause) -> bool
    ensures { result ≡ tree_below bound (if_view clause.now) }
{
    node_is_below(bound, &clause.expression) && compound_is_below(bound, &clause.body)
}

#[cycle(bounds)]
#[tactic(auto, using(crate::proofs::Below::steps))]
pub fn else_if_is_below(bound: usize, clause: &ElseIfClause) -> bool
    ensures { result ≡ tree_below bound (else_if_view clause.now) }
{
    attributes_are_below(bound, &clause.attributes)
        && node_is_below(bound, &clause.expression)
        && compound_is_below(bound, &clause.body)
}

#[cycle(bounds)]
pub fn else_ifs_are_below(bound: usize, all: &Vec<ElseIfClause>) -> bool
    ensures { result ≡ tree_below bound (listed else_if_view list all.now) }
{
    for clause in all {
        if !else_if_is_below(bound, clause) {
            return false;
        }
    }
    true
}

#[cycle(bounds)]
#[tactic(auto, using(crate::proofs::Below::steps))]
pub fn else_is_below(bound: usize, clause: &ElseClause) -> bool
    ensures { result ≡ tree_below bound (else_view clause.now) }
{
    attributes_are_below(bound, &clause.attributes) && compound_is_below(bound, &clause.body)
}

#[cycle(bounds)]
#[tactic(auto, using(crate::proofs::Below::steps))]
pub fn clause_is_below(bound: usize, clause: &SwitchClause) -> bool
    ensures { result ≡ tree_below bound (clause_view clause.now) }
{
    attributes_are_below(bound, &clause.attributes)
        && selectors_are_below(bound, &clause.case_selectors)
        && compound_is_below(bound, &clause.body)
}

#[cycle(bounds)]
pub fn clauses_are_below(bound: usize, all: &Vec<SwitchClause>) -> bool
    ensures { result ≡ tree_below bound (listed clause_view clauses all.now) }
{
    for clause in all {
        if !clause_is_below(bound, clause) {
            return false;
        }
    }
    true
}

#[cycle(bounds)]
#[tactic(auto, using(crate::proofs::Below::steps))]
pub fn continuing_is_below(bound: usize, continuing: &ContinuingStatement) -> bool
    ensures { result ≡ tree_below bound (continuing_view continuing.now) }
{
    attributes_are_below(bound, &continuing.attributes)
        && compound_is_below(bound, &continuing.body)
        && match &continuing.break_if {
            None => true,
            Some(break_if) => break_if_is_below(bound, break_if),
        }
}

#[tactic(auto, using(crate::proofs::Below::steps))]
pub fn function_is_below(bound: usize, function: &Function) -> bool
    ensures { result ≡ tree_below bound (function_view function.now) }
{
    attributes_are_below(bound, &function.attributes)
        && function.ident.0 < bound
        && parameters_are_below(bound, &function.parameters)
        && attributes_are_below(bound, &function.return_attributes)
        && optional_type_is_below(bound, &function.return_type)
        && compound_is_below(bound, &function.body)
}

#[tactic(auto, using(crate::proofs::Below::steps))]
pub fn global_is_below(bound: usize, declaration: &GlobalDeclaration) -> bool
    ensures { result ≡ tree_below bound (global_view declaration.now) }
{
    match declaration {
        GlobalDeclaration::Void => true,
        GlobalDeclaration::Declaration(declaration) => declaration_is_below(bound, declaration),
        GlobalDeclaration::TypeAlias(alias) => alias_is_below(bound, alias),
        GlobalDeclaration::Struct(structure) => struct_is_below(bound, structure),
        GlobalDeclaration::Function(function) => function_is_below(bound, function),
        GlobalDeclaration::ConstAssert(assertion) => assert_is_below(bound, assertion),
    }
}

pub fn declarations_are_below(bound: usize, declarations: &Vec<Spanned<GlobalDeclaration>>) -> bool
    ensures { result ≡ tree_below bound (declarations_tree declarations.now) }
{
    for declaration in declarations {
        if !global_is_below(bound, &declaration.node) {
            return false;
        }
    }
    true
}
