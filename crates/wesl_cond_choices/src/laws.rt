//! What follows from the definitions, for callers to cite.
ghost use Rattle.wesl_cond_choices.specs.Equality.{Equality};
ghost use Rattle.wesl_cond_choices.specs.Rows.{PlaceRows};

/// `==` tells whether two sets of choices are one.
pub fn law_of_equality()
    ensures { Equality }
{}

/// The rows of places hold.
pub fn law_of_rows()
    ensures { PlaceRows }
{}
