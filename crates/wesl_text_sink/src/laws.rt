//! What is promised of text in which tokens are laid out.
ghost use Rattle.wesl_text_sink.specs.Laws.{LayoutIsRead, MisreadIsNotMeant, ReadIsMeant, SlotsAreTokens, UnitsArePrinted};

/// A text in which tokens are laid out is read as these tokens exactly where they are read as meant.
///
/// So what a sink hands out is read as meant, and what it refuses as not meant is not.
pub fn law_of_layout()
    ensures layout_is_read { LayoutIsRead }
    ensures read_is_meant { ReadIsMeant }
    ensures misread_is_not_meant { MisreadIsNotMeant }
{}

/// The names that are printed for a unit are words, and the numbers are numbers.
pub fn law_of_slots()
    ensures { SlotsAreTokens }
{}

/// The slots of a unit, given to a sink, make a text whose tokens spell the unit, unless no text says it or a limit is met.
pub fn law_of_printing()
    ensures { UnitsArePrinted }
{}
