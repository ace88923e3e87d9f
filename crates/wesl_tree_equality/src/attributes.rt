//! Equality of attributes.
ghost use Rattle.std.specs.Prelude.{◌≡◌, ◌↔◌, IsTrue};
ghost use Rattle.wesl_tree_syntax.specs.View.{attribute_view};
ghost use Rattle.wesl_tree_equality.specs.Numbered.{numbered};

use wesl_tree_syntax::Attribute;

/// Whether two attributes are equal: they say the same.
#[tactic(auto, using(crate::proofs::OfAttributes::attribute_decided))]
pub fn equal_attributes(attribute: &Attribute, other: &Attribute) -> bool
    ensures { IsTrue result ↔ (numbered (attribute_view attribute.now) ≡ numbered (attribute_view other.now)) }
{
    attribute == other
}
