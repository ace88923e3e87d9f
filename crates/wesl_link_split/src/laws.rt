//! Laws and rows of split names, each the contract of a function that does nothing.
ghost use Rattle.wesl_link_split.specs.Laws.{NumbersAskAlike, NumbersDifferAlike, AsksForAll, AimsAsEach, AsksAsItself};
ghost use Rattle.wesl_link_split.specs.SplitRows.{SplitRows};

/// The rows of split names hold.
pub fn law_of_rows()
    ensures { SplitRows }
{}

/// What names ask for in a module that is known by numbers is what they ask for by its paths and texts.
pub fn law_of_numbers()
    ensures names { NumbersAskAlike }
    ensures targets { NumbersDifferAlike }
{}

/// Of several equal things that a name leads to, it asks for one, and so for all of them.
pub fn law_of_equals()
    ensures names { AsksForAll }
    ensures paths { AimsAsEach }
{}

/// Of several imports of a split name of their own module one may ask for all: the binders of that name that are seen from where
/// an import asks answer alike with those that are seen from where it stands.
pub fn law_of_askers()
    ensures { AsksAsItself }
{}
