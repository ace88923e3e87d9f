//! Laws of whole units.
ghost use Rattle.wesl_json_light.specs.Readable.{AreSorted, HaveNoFloat, UnitsReadBack};

/// A unit whose path texts each say the same path or none is read, once it is written in either form, as what the form
/// shows of it, and exactly where its names are nonempty, its literals are as the format says, its path texts say paths and
/// its spans do not fall.
pub fn law_of_units()
    ensures { UnitsReadBack }
{}

/// What a unit is written as has no number that is not whole.
pub fn law_of_whole_values()
    ensures { HaveNoFloat }
{}

/// What a unit is written as has the members of each object in the order of their keys.
pub fn law_of_order()
    ensures { AreSorted }
{}
