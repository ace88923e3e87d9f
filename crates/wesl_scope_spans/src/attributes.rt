//! The spans of the identifiers of attributes.
ghost use Rattle.wesl_tree_syntax.specs.Tree.{list};
ghost use Rattle.wesl_tree_syntax.specs.View.{attribute_view, attributes_tree, expression_tree, listed, optional};
ghost use Rattle.wesl_scope_spans.specs.Adds.{AddsAnywhere};

use crate::expressions::{in_node, in_nodes, in_optional_node};
use crate::places::Places;
use wesl_tree::{Attribute, AttributeNode, ExpressionNode};

/// Those of the arguments of a custom attribute, if it has any.
fn in_optional_nodes(nodes: &Option<Vec<ExpressionNode>>, places: &mut Places)
    ensures { AddsAnywhere places.old (optional (listed expression_tree list) nodes.now) places.new }
{
    match nodes {
        None => {}
        Some(nodes) => in_nodes(nodes, places),
    }
}

/// Those of the operands of an attribute.
fn in_attribute(attribute: &Attribute, places: &mut Places)
    ensures { AddsAnywhere places.old (attribute_view attribute.now) places.new }
{
    match attribute {
        Attribute::Align(operand)
        | Attribute::Binding(operand)
        | Attribute::BlendSrc(operand)
        | Attribute::Group(operand)
        | Attribute::Id(operand)
        | Attribute::Location(operand)
        | Attribute::Size(operand)
        | Attribute::If(operand)
        | Attribute::Elif(operand) => in_node(operand, places),
        Attribute::WorkgroupSize { x, y, z } => {
            in_node(x, places);
            in_optional_node(y, places);
            in_optional_node(z, places);
        }
        Attribute::Custom { name: _, arguments } => in_optional_nodes(arguments, places),
        Attribute::Builtin(_)
        | Attribute::Const
        | Attribute::Diagnostic { .. }
        | Attribute::Interpolate(_)
        | Attribute::Invariant
        | Attribute::MustUse
        | Attribute::Vertex
        | Attribute::Fragment
        | Attribute::Compute
        | Attribute::Publish
        | Attribute::Else => {}
    }
}

/// Those of the attributes of a node, in order.
pub fn in_attributes(attributes: &Vec<AttributeNode>, places: &mut Places)
    ensures { AddsAnywhere places.old (attributes_tree attributes.now) places.new }
{
    for attribute in attributes {
        in_attribute(&attribute.node, places);
    }
}
