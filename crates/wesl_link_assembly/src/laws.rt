//! Laws of the definitions.
ghost use Rattle.wesl_link_assembly.specs.Laws.{MeaningsCanBeRetold};

/// What identifiers stand for may be told in other words, one for one: the unit is linked as before.
pub fn law_of_meanings()
    ensures { MeaningsCanBeRetold }
{}
