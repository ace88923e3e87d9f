//! What is promised of what is printed.
ghost use Rattle.wesl_text_writable.specs.Laws.{FewestSayTrees, FewestSay, TreesStandApart, UnitsStandApart};
ghost use Rattle.wesl_text_writable.specs.Laws.{SaidAreWritable, SpellingsSay};

/// The tokens that must stand, alone, say a tree in the place of a sort, and a unit.
pub fn law_of_fewest()
    ensures fewest_say_trees { FewestSayTrees }
    ensures fewest_say { FewestSay }
{}

/// The tokens of a text that says a tree, or a unit, are the same where no two of them touch.
pub fn law_of_texts_apart()
    ensures trees_stand_apart { TreesStandApart }
    ensures units_stand_apart { UnitsStandApart }
{}

/// What a text says can be printed, and what is printed says it.
pub fn law_of_writing()
    ensures said_are_writable { SaidAreWritable }
    ensures spellings_say { SpellingsSay }
{}
