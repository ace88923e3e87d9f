//! Laws of the definitions.
ghost use Rattle.wesl_mangle_forms.specs.Laws.{RoundTrip, UnicodeRoundTrip};
ghost use Rattle.wesl_mangle_forms.specs.Rows.{EscapeRows, UnicodeRows};

/// The worked examples of the escape form.
pub fn escape_rows()
    ensures { EscapeRows }
{}

/// What is written in the escape form is read back.
pub fn escape_round_trip()
    ensures { RoundTrip }
{}

/// The worked examples of the Unicode form.
pub fn unicode_rows()
    ensures { UnicodeRows }
{}

/// What is written in the Unicode form is read back.
pub fn unicode_round_trip()
    ensures { UnicodeRoundTrip }
{}
