//! Rows of the form, by computation.
ghost use Rattle.wesl_json_form.specs.Rows.{ConstantIsRead, ConstantIsReadBare, ConstantIsWritten};
ghost use Rattle.wesl_json_form.specs.Rows.{WordsAreObjects, WordsAreUnknown, TypesArePlaced, SpansAreOrdered, FallingIsWritten, FormIsTwo};

/// A unit of one constant, in both forms.
pub fn row_of_a_constant()
    ensures read { ConstantIsRead }
    ensures read_bare { ConstantIsReadBare }
    ensures written { ConstantIsWritten }
{}

/// Single nodes of form 2, read and written.
pub fn rows_of_nodes()
    ensures objects { WordsAreObjects }
    ensures unknown { WordsAreUnknown }
    ensures types { TypesArePlaced }
    ensures spans { SpansAreOrdered }
    ensures falling { FallingIsWritten }
    ensures form { FormIsTwo }
{}
