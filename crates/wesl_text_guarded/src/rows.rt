//! Rows of what is guarded, by computation.
ghost use Rattle.wesl_text_guarded.specs.Rows.{ComparisonsAreEnclosed, OperandsAreEnclosed, OthersStay};

/// Trees without parentheses, and their texts.
pub fn rows_of_parentheses()
    ensures operands_are_enclosed { OperandsAreEnclosed }
    ensures others_stay { OthersStay }
    ensures comparisons_are_enclosed { ComparisonsAreEnclosed }
{}
