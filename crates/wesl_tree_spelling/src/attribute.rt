//! Attributes.
ghost use Rattle.std.specs.Prelude.{◌≡◌};
ghost use Rattle.wesl_tree_syntax.specs.Tree.{attribute_node, list};
ghost use Rattle.wesl_tree_syntax.specs.View.{attribute_view, attributes_tree, expression_tree, listed, optional, placed};

use crate::tables::{Tables, same_texts};
use wesl_tree_syntax::{Attribute, AttributeNode, ExpressionNode};

impl Tables<'_> {
    ghost use Rattle.wesl_tree_spelling.specs.Tables.{same_in};

    #[tactic(auto, using(crate::proofs::Bools::steps))]
    fn same_optional_nodes(
        &self,
        left: &Option<Vec<ExpressionNode>>,
        right: &Option<Vec<ExpressionNode>>,
    ) -> bool
        ensures { result ≡ same_in self.now (optional (listed expression_tree list) left.now) (optional (listed expression_tree list) right.now) }
    {
        match (left, right) {
            (None, None) => true,
            (Some(left), Some(right)) => self.same_nodes(left, right),
            _ => false,
        }
    }

    #[tactic(auto, using(crate::proofs::Bools::steps))]
    fn same_attribute(&self, left: &Attribute, right: &Attribute) -> bool
        ensures { result ≡ same_in self.now (attribute_view left.now) (attribute_view right.now) }
    {
        match (left, right) {
            (Attribute::Align(left), Attribute::Align(right))
            | (Attribute::Binding(left), Attribute::Binding(right))
            | (Attribute::BlendSrc(left), Attribute::BlendSrc(right))
            | (Attribute::Group(left), Attribute::Group(right))
            | (Attribute::Id(left), Attribute::Id(right))
            | (Attribute::Location(left), Attribute::Location(right))
            | (Attribute::Size(left), Attribute::Size(right))
            | (Attribute::If(left), Attribute::If(right))
            | (Attribute::Elif(left), Attribute::Elif(right)) => self.same_node(left, right),
            (Attribute::Builtin(left), Attribute::Builtin(right)) => *left == *right,
            (Attribute::Interpolate(left), Attribute::Interpolate(right)) => same_texts(
                left, right,
            ),
            (
                Attribute::Diagnostic {
                    severity: left,
                    rule: left_rule,
                },
                Attribute::Diagnostic {
                    severity: right,
                    rule: right_rule,
                },
            ) => *left == *right && *left_rule == *right_rule,
            (
                Attribute::WorkgroupSize {
                    x: left,
                    y: left_y,
                    z: left_z,
                },
                Attribute::WorkgroupSize {
                    x: right,
                    y: right_y,
                    z: right_z,
                },
            ) => self.same_node(left, right)
                && self.same_optional_node(left_y, right_y)
                && self.same_optional_node(left_z, right_z),
            (
                Attribute::Custom {
                    name: left,
                    arguments: left_arguments,
                },
                Attribute::Custom {
                    name: right,
                    arguments: right_arguments,
                },
            ) => *left == *right && self.same_optional_nodes(left_arguments, right_arguments),
            (Attribute::Const, Attribute::Const)
            | (Attribute::Invariant, Attribute::Invariant)
            | (Attribute::MustUse, Attribute::MustUse)
            | (Attribute::Vertex, Attribute::Vertex)
            | (Attribute::Fragment, Attribute::Fragment)
            | (Attribute::Compute, Attribute::Compute)
            | (Attribute::Publish, Attribute::Publish)
            | (Attribute::Else, Attribute::Else) => true,
            _ => false,
        }
    }

    #[tactic(auto, using(crate::proofs::Bools::steps))]
    fn same_attribute_node(&self, left: &AttributeNode, right: &AttributeNode) -> bool
        ensures { result ≡ same_in self.now (placed attribute_view attribute_node left.now) (placed attribute_view attribute_node right.now) }
    {
        self.same_span(left.span, right.span) && self.same_attribute(&left.node, &right.node)
    }

    pub(crate) fn same_attributes(
        &self,
        left: &Vec<AttributeNode>,
        right: &Vec<AttributeNode>,
    ) -> bool
        ensures { result ≡ same_in self.now (attributes_tree left.now) (attributes_tree right.now) }
    {
        if left.len() != right.len() {
            return false;
        }
        for i in 0..left.len() {
            if !self.same_attribute_node(&left[i], &right[i]) {
                return false;
            }
        }
        true
    }
}
