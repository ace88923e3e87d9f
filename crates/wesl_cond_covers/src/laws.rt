//! What follows from the definitions, for callers to cite.
ghost use Rattle.wesl_cond_covers.specs.Sight.{ChangesTell};

/// From two places the same places of a row are seen exactly where sight changes at the same indices.
pub fn law_of_sights()
    ensures { ChangesTell }
{}
