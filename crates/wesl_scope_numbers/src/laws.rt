//! Laws of faithful modules.
ghost use Rattle.wesl_scope_numbers.specs.Laws.{TestsFaith, MeansTheFirst, CanonicalIsFaithful, FaithfulIsCanonical};

use wesl_scope_occurrences::law_of_occurrences;

/// The test of faith says what the words say, and a name means the first of the binders that it picks.
pub fn law_of_faith()
    ensures test { TestsFaith }
    ensures first { MeansTheFirst }
{}

/// Canonical numbers make a module faithful; and where its numbers follow what its identifiers mean, but that names of
/// the module may be spelled alike and references read otherwise, it is faithful exactly where they are canonical.
pub fn law_of_canonical_numbers()
    ensures canonical { CanonicalIsFaithful }
    ensures faithful { FaithfulIsCanonical }
{
    law_of_occurrences();
}
