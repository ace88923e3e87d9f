//! Laws of the definitions.
ghost use Rattle.wesl_scope_open.specs.Laws.{OneWalkFindsMeanings, OneWalkNumbersMeanings};

/// What one walk reads in the table of open binders, is what each identifier of a module means by plain scoping, and
/// numbers for the one are numbers for the other.
pub fn law_of_open_binders()
    ensures meanings { OneWalkFindsMeanings }
    ensures numbers { OneWalkNumbersMeanings }
{}
