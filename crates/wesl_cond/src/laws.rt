//! What conditional translation promises, whatever the module.
ghost use Rattle.wesl_cond.specs.Units.{SpellsWhatIsLeft};

pub use wesl_cond_chains::{
    law_of_both_stages, law_of_choices, law_of_faults, law_of_later_stages, law_of_stages,
    law_of_then, law_of_twice,
};
pub use wesl_cond_unit::law_of_repetition;

/// What features leave of a unit is spelled as what they leave of its spelling.
pub fn law_of_spelling()
    ensures { SpellsWhatIsLeft }
{}
