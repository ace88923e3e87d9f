//! Laws of the definitions.
ghost use Rattle.wesl_cond_unit.specs.Left.{LeavesNoFault};

/// Where no fault stands, none stands in what is left, under the same answers.
pub fn law_of_repetition()
    ensures { LeavesNoFault }
{}
