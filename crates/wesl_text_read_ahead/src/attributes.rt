//! Looking behind attributes.
ghost use Rattle.wesl_text_read_ahead.specs.Ahead.{LooksBehind, tokens_of};

use wesl_text_read::Reader;
use wesl_text_tokens::{PlacedToken, Symbol};

/// The tokens behind the attributes that come first, which are still to be read.
pub fn behind_attributes<'t>(reader: &mut Reader<'t>) -> &'t [PlacedToken<'t>]
    ensures { LooksBehind (tokens_of result.now) reader.old reader.new }
{
    if !reader.begins_sign(Symbol::At) {
        return reader.rest;
    }
    let start = reader.rest;
    let finish = reader.finish;
    let _attributes = reader.attributes();
    let behind = reader.rest;
    if reader.fault.is_none() {
        reader.rest = start;
        reader.finish = finish;
    }
    behind
}
