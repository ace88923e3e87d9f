//! Tables of names: what they hold after a call that adds to them, and after one that was refused.
use serde_json::Value;
use wesl_link_symbols::ids::NameId;
use wesl_rows_base::{List, Row, is_refused, names_value, stands, text_of};
use wesl_tree_interner::Interner;

/// The names of an interner.
fn listed(row: Row<'_>, interner: &Interner) -> Value {
    let mut names = List::new(row.alloc);
    for number in 0..interner.len() {
        names.put(row.found_text(interner.name(NameId(number))));
    }
    names.end(row)
}

/// The names of an interner that was given the texts `given`, and `then` one more, or, where that is refused, those that
/// it has then.
pub fn interned_or_left(row: Row<'_>) -> Value {
    let mut interner = Interner::new(row.alloc);
    for text in row.list("given") {
        row.refused_if(is_refused(interner.intern(text_of(text))));
    }
    let is_refused = is_refused(interner.intern(row.text("then")));
    stands(row, is_refused, listed(row, &interner))
}

/// The names of a table to which the texts `given` were added, and `then` one more, or, where that is refused, those that
/// it has then.
pub fn added_or_left(row: Row<'_>) -> Value {
    let mut names = row.names("given");
    let is_refused = is_refused(names.add(row.text("then")));
    stands(row, is_refused, names_value(row, &names))
}
