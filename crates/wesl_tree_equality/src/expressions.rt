//! Equality of expressions and types.
ghost use Rattle.std.specs.Prelude.{◌≡◌, ◌↔◌, IsTrue};
ghost use Rattle.wesl_tree_syntax.specs.View.{literal_tree, expression_view, call_view, argument_view, type_view};
ghost use Rattle.wesl_tree_equality.specs.Numbered.{numbered};

use wesl_tree_syntax::{Expression, FunctionCall, Literal, TemplateArg, TypeExpression};

/// Whether two literals are equal: they say the same.
#[tactic(auto, using(crate::proofs::OfLiterals::literals_decided))]
pub fn equal_literals(literal: &Literal, other: &Literal) -> bool
    ensures { IsTrue result ↔ (numbered (literal_tree literal.now) ≡ numbered (literal_tree other.now)) }
{
    literal == other
}

/// Whether two expressions are equal: they say the same.
#[tactic(auto, using(crate::proofs::OfExpressions::expressions_decided))]
pub fn equal_expressions(expression: &Expression, other: &Expression) -> bool
    ensures { IsTrue result ↔ (numbered (expression_view expression.now) ≡ numbered (expression_view other.now)) }
{
    expression == other
}

/// Whether two calls are equal: they call the same with equal arguments.
#[tactic(auto, using(crate::proofs::OfExpressions::calls_decided))]
pub fn equal_calls(call: &FunctionCall, other: &FunctionCall) -> bool
    ensures { IsTrue result ↔ (numbered (call_view call.now) ≡ numbered (call_view other.now)) }
{
    call == other
}

/// Whether two arguments of templates are equal: they say the same.
#[tactic(auto, using(crate::proofs::OfExpressions::arguments_decided))]
pub fn equal_template_arguments(argument: &TemplateArg, other: &TemplateArg) -> bool
    ensures { IsTrue result ↔ (numbered (argument_view argument.now) ≡ numbered (argument_view other.now)) }
{
    argument == other
}

/// Whether two types, or names of values, are equal: their paths, their numbers and their template arguments are.
#[tactic(auto, using(crate::proofs::OfExpressions::types_decided))]
pub fn equal_types(ty: &TypeExpression, other: &TypeExpression) -> bool
    ensures { IsTrue result ↔ (numbered (type_view ty.now) ≡ numbered (type_view other.now)) }
{
    ty == other
}
