//! What plain scoping reads in a linked unit.
ghost use Rattle.wesl_link_laws.specs.ReadAsMeant.{FaithfulReadsAsMeant};

use wesl_scope_occurrences::law_of_occurrences;

/// A linked unit is faithful exactly where plain scoping of its printed names gives each reference what its source
/// denotes.
pub fn law_of_reading()
    ensures { FaithfulReadsAsMeant }
{
    law_of_occurrences();
}
