//! What is promised of what is read.
ghost use Rattle.wesl_text_sound.specs.Laws.{TreesAreSaid, UnitsAreSaid, TokensOfTexts, TextsAreSaid};
ghost use Rattle.wesl_text_sound.specs.Laws.{TextsSayWhatIsRead, TextsSayNoOther, UnreadTextsSayMore};

/// What tokens whose names are words, and whose numbers are numbers, are read as, they say: the tokens of each text are such,
/// and what a text is read as, it says.
pub fn law_of_soundness()
    ensures trees_are_said { TreesAreSaid }
    ensures units_are_said { UnitsAreSaid }
    ensures tokens_of_texts { TokensOfTexts }
    ensures texts_are_said { TextsAreSaid }
{}

/// A text says just what its tokens are read as: one unit where they are read, and where they are not, none with at most so many
/// levels.
pub fn law_of_texts()
    ensures texts_say_what_is_read { TextsSayWhatIsRead }
    ensures texts_say_no_other { TextsSayNoOther }
    ensures unread_texts_say_more { UnreadTextsSayMore }
{}
