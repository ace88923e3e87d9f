//! What conditional translation promises, whatever the module.
ghost use Rattle.wesl_cond_chains.specs.Laws.{BothStagesAreFaultless, LaterStagesAreFaultless, LeftStaysWithin, PicksTheSame, RunsInStages, SpellingTellsFaults, ThenIsInStages, TwiceIsOnce};

/// What a second stage leaves of what a first one left is what both in one leave.
pub fn law_of_stages()
    ensures { RunsInStages }
{}

/// Twice is once.
pub fn law_of_twice()
    ensures { TwiceIsOnce }
{}

/// A choice of flags that agrees with the answers picks the same before and after.
pub fn law_of_choices()
    ensures { PicksTheSame }
{}

/// Without a refusal in the first set, what two sets in one say of a flag is what they say in stages.
pub fn law_of_then()
    ensures { ThenIsInStages }
{}

/// A module without a fault has none in a later stage that refuses no flag.
pub fn law_of_later_stages()
    ensures { LaterStagesAreFaultless }
{}

/// A module without a fault has none in two stages at once, where neither refuses a flag.
pub fn law_of_both_stages()
    ensures { BothStagesAreFaultless }
{}

/// No fault stands in a module exactly where none stands in its spelling.
pub fn law_of_faults()
    ensures { SpellingTellsFaults }
{}

/// What is left of a tree names nothing outside its table.
pub fn law_of_bounds()
    ensures { LeftStaysWithin }
{}
