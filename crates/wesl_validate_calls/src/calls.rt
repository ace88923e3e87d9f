//! The calls of a declaration.
ghost use Rattle.std.specs.Prelude.{◌≡◌, map, IfOk, IfErr};
ghost use Rattle.wesl_tree_names.specs.declared.errors.Error as error;
ghost use Rattle.wesl_visit_collect.specs.Lent.{views};
ghost use Rattle.wesl_tree_syntax.specs.Tree.{before, end};
ghost use Rattle.wesl_tree_syntax.specs.View.{call_view, expression_tree, expression_view, global_view, statement_tree, statement_view};
ghost use Rattle.wesl_validate_rules.specs.Calls.{call_by, called_in, calls_in};
ghost use Rattle.wesl_validate_calls.specs.Made.{call_told, calls_among, one_told};
ghost use Rattle.wesl_validate_calls.specs.Views.{AddsCalls};

use std::alloc::{AllocError, Global};
use wesl_tree_names::Error;
use wesl_tree_syntax::{
    Expression, ExpressionNode, FunctionCall, GlobalDeclaration, Statement, StatementNode,
};
use wesl_visit::Collect;

/// A call of a name without a path.
#[derive(Clone, Copy)]
pub struct Call {
    /// the number of the name
    pub callee: usize,
    /// how many arguments it has
    pub arguments: usize,
}

/// The call, if it is one of a name without a path.
#[tactic(auto, using(wesl_scope_strip::proofs::Keeping::trees_count))]
fn plain_call(call: &FunctionCall) -> Option<Call>
    ensures { one_told result ≡ call_by (call_view call.now).children }
{
    match &call.ty.path {
        Some(_) => None,
        None => Some(Call {
            callee: call.ty.ident.0,
            arguments: call.arguments.len(),
        }),
    }
}

/// The call that an expression is, if it is one.
fn expression_call(expression: &Expression) -> Option<Call>
    ensures { one_told result ≡ called_in (before (expression_view expression.now) end) }
{
    match expression {
        Expression::Literal(_) => None,
        Expression::Parenthesized { expression: _ } => None,
        Expression::NamedComponent {
            base: _,
            component: _,
        } => None,
        Expression::Indexing { base: _, index: _ } => None,
        Expression::Unary {
            operator: _,
            operand: _,
        } => None,
        Expression::Binary {
            operator: _,
            left: _,
            right: _,
        } => None,
        Expression::FunctionCall(call) => plain_call(call),
        Expression::TypeOrIdentifier(_) => None,
    }
}

/// The call that a statement is, if it is one.
fn statement_call(statement: &Statement) -> Option<Call>
    ensures { one_told result ≡ called_in (before (statement_view statement.now) end) }
{
    match statement {
        Statement::FunctionCall {
            attributes: _,
            call,
        } => plain_call(call),
        _ => None,
    }
}

fn add(calls: &mut Vec<Call>, call: Option<Call>) -> Result<(), AllocError>
    ensures { IfOk result (λ _. AddsCalls (one_told call) calls.old calls.new) }
{
    match call {
        None => Ok(()),
        Some(call) => {
            calls.push(call)?;
            Ok(())
        }
    }
}

fn add_expressions(calls: &mut Vec<Call>, nodes: &Vec<&ExpressionNode>) -> Result<(), AllocError>
    ensures { IfOk result (λ _. AddsCalls (calls_among (views expression_tree nodes.now.items)) calls.old calls.new) }
{
    for node in nodes {
        let call = expression_call(&node.node);
        add(calls, call)?;
    }
    Ok(())
}

fn add_statements(calls: &mut Vec<Call>, nodes: &Vec<&StatementNode>) -> Result<(), AllocError>
    ensures { IfOk result (λ _. AddsCalls (calls_among (views statement_tree nodes.now.items)) calls.old calls.new) }
{
    for node in nodes {
        let call = statement_call(&node.node);
        add(calls, call)?;
    }
    Ok(())
}

/// The calls without a path in a declaration: expressions, then statements. Refused for want of memory alone.
pub fn calls_of(alloc: Global, declaration: &GlobalDeclaration) -> Result<Vec<Call>, Error>
    ensures calls { IfOk result (λ calls. map call_told calls.items ≡ calls_in (before (global_view declaration.now) end)) }
    ensures refused { IfErr result (λ e. e ≡ error.Memory) }
{
    let mut calls = Vec::new(alloc);
    let expressions: Vec<&ExpressionNode> = declaration.collect(alloc, true)?;
    add_expressions(&mut calls, &expressions)?;
    let statements: Vec<&StatementNode> = declaration.collect(alloc, true)?;
    add_statements(&mut calls, &statements)?;
    Ok(calls)
}
