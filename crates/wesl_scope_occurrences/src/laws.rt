//! Laws of the definitions.
ghost use Rattle.wesl_scope_occurrences.specs.Laws.{WaysLeadOutwards, SpellingKeepsOccurrences, OccurrencesAreIdentifiers, PiecesAreDeclarations};
ghost use Rattle.wesl_scope_occurrences.specs.EventLaws.{EventsAreOccurrences};

/// The way of a block leads from it outwards: the module's block has the empty way, and any other its number before
/// the way of the block round it.
pub fn law_of_ways()
    ensures { WaysLeadOutwards }
{}

/// A module's identifiers stand as they stand in it once each is its name, and they are those of its tree.
pub fn law_of_occurrences()
    ensures spelling { SpellingKeepsOccurrences }
    ensures identifiers { OccurrencesAreIdentifiers }
{}

/// The identifiers that lie in a global declaration are those of its tree.
pub fn law_of_pieces()
    ensures { PiecesAreDeclarations }
{}

/// What is collected from the events of a module are its identifiers, each with how it stands, its place and its block.
pub fn law_of_events()
    ensures { EventsAreOccurrences }
{}
