//! Laws of the definitions.
ghost use Rattle.wesl_scope_clashes.specs.Laws.{NoneIsFaithful};

/// No identifier clashes exactly where the names of the module's block and its references read as numbers say.
pub fn law_of_clashes()
    ensures { NoneIsFaithful }
{}
