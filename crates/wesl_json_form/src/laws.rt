//! Laws of the form.
ghost use Rattle.wesl_json_form.specs.Laws.{WholeFormRefuses};

/// A value that breaks the form at some place has no reading, in either form.
pub fn law_of_places()
    ensures { WholeFormRefuses }
{}
