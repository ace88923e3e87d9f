//! Rows of reading, by computation.
ghost use Rattle.wesl_text_reading.specs.Rows.{TokensAreRead};

/// Tokens and the trees that they are read as.
pub fn rows_of_reading()
    ensures tokens_are_read { TokensAreRead }
{}
