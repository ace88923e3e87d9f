//! What lists go on with that a sign closes.
ghost use Rattle.wesl_text_read.specs.Leads.{Tells};
ghost use Rattle.wesl_text_read_imports.specs.Closed.{next_item};

use wesl_text_read::Reader;
use wesl_text_tokens::Symbol;

/// Goes on behind a comma, where one stands behind an item of a list. Whether another item follows, and not the sign
/// that closes the list.
pub fn next_item(reader: &mut Reader<'_>, closing: Symbol) -> bool
    ensures { Tells (next_item closing) result reader.old reader.new }
{
    if !reader.skip_comma() {
        return false;
    }
    !reader.begins_sign(closing)
}
