//! What is promised of what features leave of units.
ghost use Rattle.wesl_text_judged.specs.Laws.{BareUnits, LeftUnits, LeftViews};

/// What features leave of a unit that is writable, and in which no fault of a condition stands, is writable exactly where each
/// assignment, increment and decrement that is left, at any depth, has attributes that end before its target. So it is where
/// these have none. It speaks of what `condition` and `run` leave.
pub fn law_of_left_units()
    ensures left_units { LeftUnits }
    ensures bare_units { BareUnits }
    ensures left_views { LeftViews }
{}
