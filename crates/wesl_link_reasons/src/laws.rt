//! Laws of reasons, each the contract of a function that does nothing.
ghost use Rattle.wesl_link_reasons.specs.Laws.{HaveReasons, LinksAreUnbroken};

use wesl_link_reach::loader::Loader;

/// A symbol is reached exactly where there is a reason for it, and a path is entered exactly where there is one for its
/// module; for any kind of paths and names.
pub fn law_of_reasons<P, N>()
    ensures { HaveReasons P N }
{}

/// A link that succeeded has what a search for reasons asks of it.
pub fn law_of_links<E, L: Loader<E>>(loader: &L)
    ensures { LinksAreUnbroken (L.hands loader.now) (L.refuses loader.now) }
{}
