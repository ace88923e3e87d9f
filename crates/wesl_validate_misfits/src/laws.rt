//! A law of the definitions.
ghost use Rattle.wesl_validate_misfits.specs.Laws.{PlacedAreMisfits};

/// Where one module is another with places for numbers, the calls that fit nothing by their places are those of the other.
pub fn law_of_places()
    ensures { PlacedAreMisfits }
{}
