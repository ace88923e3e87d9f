//! Laws of linked bundles.
ghost use Rattle.wesl_program_laws.specs.Laws.{LinksAreFound, BundlesAreFound, EscapedSaysNoClash};

use wesl_link_laws::law_of_escape_names;
use wesl_resolve_base::Resolver;

/// The modules of a link are such as the laws of linked units in `wesl_link_laws` ask for: their units are those of code, no
/// path stands twice, and each is entered. It speaks of the links of `link_at` and of `link_mapped`.
pub fn law_of_found_links<R: Resolver>(resolver: &R)
    ensures { LinksAreFound (R.hands resolver.now) (R.refuses resolver.now) }
{}

/// The same of the link that the line of a bundle tells of: so these laws speak of its unit.
pub fn law_of_bundle_links()
    ensures { BundlesAreFound }
{}

/// The line that `run` writes of a bundle with the mangler `escape` and `mangle_root` says `"clash":false` where each symbol
/// that the link holds is read back from its escape name, and no parameter, no local declaration and no free reference of
/// the linked unit is spelled as the escape name of one. `escape_round_trip` says which symbols are read back: those that
/// `EscapeMangler::is_reversible` holds of, where no name of theirs has 2^63 bytes.
pub fn law_of_escape_lines()
    ensures { EscapedSaysNoClash }
{
    law_of_bundle_links();
    law_of_escape_names();
}
