//! Laws of linked units.
ghost use Rattle.wesl_link_laws.specs.Laws.{LinkedIsCanonical, ApartIsFaithful, EscapedIsFaithful, ResolvedIsCanonical, ResolvedIsFaithful, MangledIsFaithful};

use wesl_link_sound::law_of_sound_links;
use wesl_mangle_forms::escape_round_trip;
use wesl_scope_numbers::law_of_canonical_numbers;
use wesl_scope_occurrences::{law_of_occurrences, law_of_ways};

/// A linked unit is faithful exactly where its numbers are the canonical numbers of plain scoping on it: `retarget_idents`
/// would then change none, and the unit printed, read again and retargeted has the same numbers. It speaks of the units of
/// `Resolutions::assemble`, of `link_mapped` and of a bundle's line: each is the linked form of a link's modules, which are
/// units of code, no path twice, each of them entered.
pub fn law_of_canonical_links()
    ensures linked { LinkedIsCanonical }
    ensures resolved { ResolvedIsCanonical }
{
    law_of_ways();
    law_of_occurrences();
    law_of_canonical_numbers();
    law_of_sound_links();
}

/// A linked unit is faithful where binders of its module block that are spelled alike have one number, and no parameter, no
/// local declaration and no free reference of it is spelled as one of them. It speaks of the same units.
pub fn law_of_apart_names()
    ensures linked { ApartIsFaithful }
    ensures resolved { ResolvedIsFaithful }
{
    law_of_ways();
    law_of_occurrences();
    law_of_sound_links();
}

/// A unit linked under the names of `EscapeMangler`, those of the root too, is faithful where each held symbol is read back
/// from its escape name, and no parameter, no local declaration and no free reference of it is spelled as the escape name of
/// one. It speaks of the same units. `escape_round_trip` says which symbols are read back: in the unit of a `Resolutions`
/// those that `EscapeMangler::is_reversible` holds of. There `before` is what `resolve_lazy` or `resolve_eager` answers,
/// `after` what `Resolutions::mangle` leaves of it.
pub fn law_of_escape_names()
    ensures linked { EscapedIsFaithful }
    ensures mangled { MangledIsFaithful }
{
    law_of_ways();
    law_of_occurrences();
    escape_round_trip();
    law_of_sound_links();
}
