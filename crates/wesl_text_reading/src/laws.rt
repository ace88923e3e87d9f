//! What is promised of the reading of tokens.
ghost use Rattle.wesl_text_reading.specs.Laws.{TreesAreRead, TokensSayOneTree, UnitsAreRead, TokensSayOneUnit, TextSaysOneUnit};

/// What is said in the place of a sort is read; tokens say one tree there.
pub fn law_of_reading()
    ensures trees_are_read { TreesAreRead }
    ensures tokens_say_one_tree { TokensSayOneTree }
{}

/// The unit that is said is read; tokens say one unit, and so does a text.
pub fn law_of_units()
    ensures units_are_read { UnitsAreRead }
    ensures tokens_say_one_unit { TokensSayOneUnit }
    ensures text_says_one_unit { TextSaysOneUnit }
{}
