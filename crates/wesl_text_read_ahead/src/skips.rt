//! Words and brackets that must come first.
ghost use Rattle.std.specs.Prelude.{◌≡◌};
ghost use Rattle.wesl_text_tokens.specs.Tokens.{name, open_list};
ghost use Rattle.wesl_text_form.specs.Slots.{behind_token};
ghost use Rattle.wesl_text_reading.specs.FirstTokens.{begins_word};
ghost use Rattle.wesl_text_read.specs.Leads.{Skips, ahead};

use crate::first::word_begins;
use wesl_text_read::{Expected, Reader};

/// Whether this word comes first.
pub fn begins_word(reader: &Reader<'_>, word: &str) -> bool
    ensures { result ≡ begins_word word.now (ahead reader.now) }
{
    word_begins(reader.rest, word)
}

/// Goes on behind a word, which must come first.
pub fn skip_word(reader: &mut Reader<'_>, word: &str)
    ensures { Skips (behind_token (name word.now)) reader.old reader.new }
{
    if begins_word(reader, word) {
        reader.step();
    } else {
        reader.wrong(Expected::Name);
    }
}

/// Goes on behind the bracket that opens a template list, which must come first.
pub fn skip_open(reader: &mut Reader<'_>)
    ensures { Skips (behind_token open_list) reader.old reader.new }
{
    if reader.opens_list() {
        reader.step();
    } else {
        reader.wrong(Expected::OpenList);
    }
}
