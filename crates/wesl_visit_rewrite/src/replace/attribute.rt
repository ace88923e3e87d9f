//! What is replaced in attributes, and in fields that may be absent.
ghost use Rattle.wesl_visit_rewrite.specs.Replaced.{rule};
ghost use Rattle.wesl_visit_rewrite.specs.Went.{AllWent, WentTo};
ghost use Rattle.wesl_tree_syntax.specs.Tree.{attribute_node};
ghost use Rattle.wesl_tree_syntax.specs.View.{attribute_view, attributes_tree, expression_tree, optional, placed, type_view};

use crate::replace::expression::{at_expression, at_expressions, at_type};
use wesl_tree_syntax::{Attribute, AttributeNode, Attributes, ExpressionNode, TypeExpression};
use wesl_visit_collect::{Replace, Rewrite, law_of_words};

pub(crate) fn at_optional_expression<T: Replace, R: Rewrite<T>>(
    node: &mut Option<ExpressionNode>,
    deep: bool,
    rewriter: &mut R,
    goes: bool,
) -> bool
    ensures { WentTo (rule T.Kind.sought R.rewrites deep) (optional expression_tree) goes node.old result node.new }
{
    match node {
        None => goes,
        Some(node) => at_expression(node, deep, rewriter, goes),
    }
}

pub(crate) fn at_optional_type<T: Replace, R: Rewrite<T>>(
    ty: &mut Option<TypeExpression>,
    deep: bool,
    rewriter: &mut R,
    goes: bool,
) -> bool
    ensures { WentTo (rule T.Kind.sought R.rewrites deep) (optional type_view) goes ty.old result ty.new }
{
    match ty {
        None => goes,
        Some(ty) => at_type(ty, deep, rewriter, goes),
    }
}

/// The formulas of conditional attributes are passed over.
pub(crate) fn in_attribute<T: Replace, R: Rewrite<T>>(
    attribute: &mut Attribute,
    deep: bool,
    rewriter: &mut R,
    goes: bool,
) -> bool
    ensures { WentTo (rule T.Kind.sought R.rewrites deep) attribute_view goes attribute.old result attribute.new }
{
    law_of_words();
    match attribute {
        Attribute::Align(operand) => at_expression(operand, deep, rewriter, goes),
        Attribute::Binding(operand) => at_expression(operand, deep, rewriter, goes),
        Attribute::BlendSrc(operand) => at_expression(operand, deep, rewriter, goes),
        Attribute::Group(operand) => at_expression(operand, deep, rewriter, goes),
        Attribute::Id(operand) => at_expression(operand, deep, rewriter, goes),
        Attribute::Location(operand) => at_expression(operand, deep, rewriter, goes),
        Attribute::Size(operand) => at_expression(operand, deep, rewriter, goes),
        Attribute::WorkgroupSize { x, y, z } => {
            let goes = at_expression(x, deep, rewriter, goes);
            let goes = at_optional_expression(y, deep, rewriter, goes);
            at_optional_expression(z, deep, rewriter, goes)
        }
        Attribute::Custom { name: _, arguments } => match arguments {
            None => goes,
            Some(arguments) => at_expressions(arguments, deep, rewriter, goes),
        },
        _ => goes,
    }
}

pub(crate) fn in_attributes<T: Replace, R: Rewrite<T>>(
    attributes: &mut [AttributeNode],
    deep: bool,
    rewriter: &mut R,
    goes: bool,
) -> bool
    ensures { AllWent (rule T.Kind.sought R.rewrites deep) (placed attribute_view attribute_node) goes attributes.old result attributes.new }
{
    let mut goes = goes;
    for i in 0..attributes.len() {
        goes = in_attribute(&mut attributes[i].node, deep, rewriter, goes);
    }
    goes
}

pub(crate) fn at_attributes<T: Replace, R: Rewrite<T>>(
    attributes: &mut Attributes,
    deep: bool,
    rewriter: &mut R,
    goes: bool,
) -> bool
    ensures { WentTo (rule T.Kind.sought R.rewrites deep) attributes_tree goes attributes.old result attributes.new }
{
    if T::takes_whole_attributes(deep) {
        T::finish_attributes(attributes, rewriter, goes)
    } else {
        let goes = in_attributes(attributes, deep, rewriter, goes);
        T::finish_attributes(attributes, rewriter, goes)
    }
}
