//! What is collected in attributes, and in fields that may be absent.
ghost use Rattle.wesl_tree_syntax.specs.Tree.{before, end};
ghost use Rattle.wesl_tree_syntax.specs.View.{attribute_view, attributes_tree, expression_tree, optional, type_view};
ghost use Rattle.wesl_visit_collect.specs.Adds.{Adds};

use crate::collect::expression::{at_expression, at_expressions, at_type};
use crate::collected::Collected;
use crate::kinds::{Kind, NodeRef};
use wesl_tree_syntax::{Attribute, Attributes, ExpressionNode, TypeExpression};

pub(crate) fn at_optional_expression<'a, T: Kind>(
    node: &'a Option<ExpressionNode>,
    found: &mut Collected<'a, T>,
)
    ensures { Adds T.sought T.view found.old (before (optional expression_tree node.now) end) found.new }
{
    match node {
        None => {}
        Some(node) => at_expression(node, found),
    }
}

pub(crate) fn at_optional_type<'a, T: Kind>(
    ty: &'a Option<TypeExpression>,
    found: &mut Collected<'a, T>,
)
    ensures { Adds T.sought T.view found.old (before (optional type_view ty.now) end) found.new }
{
    match ty {
        None => {}
        Some(ty) => at_type(ty, found),
    }
}

/// Adds the nodes of a kind in an attribute, in document order. The formulas of conditional attributes are passed over.
pub fn in_attribute<'a, T: Kind>(attribute: &'a Attribute, found: &mut Collected<'a, T>)
    ensures { Adds T.sought T.view found.old (before (attribute_view attribute.now) end) found.new }
{
    match attribute {
        Attribute::Align(operand) => at_expression(operand, found),
        Attribute::Binding(operand) => at_expression(operand, found),
        Attribute::BlendSrc(operand) => at_expression(operand, found),
        Attribute::Group(operand) => at_expression(operand, found),
        Attribute::Id(operand) => at_expression(operand, found),
        Attribute::Location(operand) => at_expression(operand, found),
        Attribute::Size(operand) => at_expression(operand, found),
        Attribute::WorkgroupSize { x, y, z } => {
            at_expression(x, found);
            at_optional_expression(y, found);
            at_optional_expression(z, found);
        }
        Attribute::Custom { name: _, arguments } => match arguments {
            None => {}
            Some(arguments) => at_expressions(arguments, found),
        },
        _ => {}
    }
}

pub(crate) fn at_attributes<'a, T: Kind>(attributes: &'a Attributes, found: &mut Collected<'a, T>)
    ensures { Adds T.sought T.view found.old (before (attributes_tree attributes.now) end) found.new }
{
    if found.enter(NodeRef::Attributes(attributes)) {
        for attribute in attributes {
            in_attribute(&attribute.node, found);
        }
    }
}
