//! Places and positions of a unit's nodes.
ghost use Rattle.wesl_tree_syntax.specs.Unit.{spelled};
ghost use Rattle.wesl_tree.specs.Translation.{unit_view};
ghost use Rattle.wesl_link_laws.specs.Positions.{PlacesArePositions};

use wesl_tree::TranslationUnit;

/// A choice of flags keeps an import statement or a global declaration by its place, as symbol tables tell it, exactly
/// where it keeps the node at its position, as `alive_together` tells it (WESL, "ConditionalTranslation").
pub fn law_of_positions(unit: &TranslationUnit)
    ensures { PlacesArePositions (spelled (unit_view unit.now)) }
{}
