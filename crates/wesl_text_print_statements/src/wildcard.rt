//! The target `_` of an assignment (WGSL, "Phony Assignment").
ghost use Rattle.std.specs.Prelude.{codes, bytes_eq, ◌≡◌};
ghost use Rattle.wesl_text_form.specs.Spelling.{is_wildcard};
ghost use Rattle.wesl_text_operands.specs.Targets.{spelled_in};
ghost use Rattle.wesl_text_print_statements.specs.Wildcards.{spelled_type};
ghost use Rattle.wesl_tree_syntax.specs.Tree.{at, expression_node};
ghost use Rattle.wesl_tree_syntax.specs.Unit.{name_in};

use wesl_text_print::spelling;
use wesl_tree_names::{Ident, Names};
use wesl_tree_syntax::{Expression, TypeExpression};

/// Whether an expression is `_`.
pub(crate) fn is_wildcard(names: &Names, expression: &Expression) -> bool
    ensures { result ≡ is_wildcard (at expression_node 0 0) (spelled_in names.now expression.now) }
{
    match expression {
        Expression::Literal(_literal) => false,
        Expression::Parenthesized { expression: _inner } => false,
        Expression::NamedComponent {
            base: _base,
            component: _component,
        } => false,
        Expression::Indexing {
            base: _base,
            index: _index,
        } => false,
        Expression::Unary {
            operator: _operator,
            operand: _operand,
        } => false,
        Expression::Binary {
            operator: _operator,
            left: _left,
            right: _right,
        } => false,
        Expression::FunctionCall(_call) => false,
        Expression::TypeOrIdentifier(ty) => is_plain_underscore(names, ty),
    }
}

// Whether a type is `_` without a path and without arguments.
fn is_plain_underscore(names: &Names, ty: &TypeExpression) -> bool
    ensures { result ≡ is_wildcard (at expression_node 0 0) (spelled_type names.now ty.now) }
{
    ty.path.is_none() && ty.template_args.is_none() && is_underscore(names, ty.ident)
}

// Whether the name of an identifier is `_`.
fn is_underscore(names: &Names, ident: Ident) -> bool
    ensures { result ≡ bytes_eq (name_in names.now ident.0) (codes "_") }
{
    spelling(names, ident) == "_"
}
