//! Scopes: identifiers and their numbers, entry points, stripping, and names that clash.
use serde_json::Value;
use wesl_rows_base::{
    List, Object, Row, is_refused, names_value, numbers_value, stands, unit_of_one,
};
use wesl_scope::{
    Binder, Clash, Reading, SyntaxUtil, clashes, identifier_spans, names_clash, strip_except,
};
use wesl_scope_occurrences::{Identifiers, Standing, occurrences};
use wesl_scope_words::{WordClash, word_clashes};
use wesl_tree::{Ident, Span, TranslationUnit};

/// The identifiers of a unit, or none.
fn identifiers<'a>(row: Row<'_>, unit: &'a TranslationUnit) -> Identifiers<'a> {
    let none = Identifiers {
        all: Vec::new(row.alloc),
        outer: Vec::new(row.alloc),
        starts: Vec::new(row.alloc),
    };
    row.or(occurrences(row.alloc, unit), none)
}

/// The block of each identifier of the `tree`, the place and the end of each local name, and the block round each block.
pub fn found(row: Row<'_>) -> Value {
    let unit = row.tree();
    let found = identifiers(row, &unit);
    let mut blocks = List::new(row.alloc);
    let mut ends = List::new(row.alloc);
    for occurrence in found.all.as_slice() {
        blocks.number(occurrence.block);
        if let Standing::Local { end } = occurrence.standing {
            ends.put(numbers_value(row, &[occurrence.place, end]));
        }
    }
    let mut answer = Object::new(row.alloc);
    answer.put("blocks", blocks.end(row));
    answer.put("ends", ends.end(row));
    answer.put("outer", numbers_value(row, found.outer.as_slice()));
    answer.end(row)
}

/// The numbers of a unit's identifiers, in document order.
fn numbers(row: Row<'_>, unit: &TranslationUnit) -> Vec<usize> {
    let mut numbers = Vec::new(row.alloc);
    for occurrence in identifiers(row, unit).all.as_slice() {
        row.push(&mut numbers, occurrence.ident.0);
    }
    numbers
}

/// The same of the `tree`, as a value.
pub fn numbers_told(row: Row<'_>) -> Value {
    numbers_value(row, numbers(row, &row.tree()).as_slice())
}

/// The numbers of a unit's identifiers once they are numbered by what they mean.
fn renumbered(row: Row<'_>, unit: &mut TranslationUnit) -> Vec<usize> {
    row.done(unit.retarget_idents(row.alloc));
    numbers(row, unit)
}

/// The numbers that the identifiers of the `tree` get, how many names there are then, whether the spelling stays that of
/// the `tree`, and whether the numbers stay when they are given again.
pub fn retargeted(row: Row<'_>) -> Value {
    let mut unit = row.tree();
    let first = renumbered(row, &mut unit);
    let mut answer = Object::new(row.alloc);
    answer.number("names", unit.names().len());
    answer.put("numbers", numbers_value(row, first.as_slice()));
    answer.flag("same_spelling", unit.same_spelling(&row.tree()));
    answer.flag("same_numbers_again", renumbered(row, &mut unit) == first);
    answer.end(row)
}

/// The numbers and names of the `tree` when its identifiers are numbered by what they mean, and, where that is refused,
/// those that it has then.
pub fn numbered_or_left(row: Row<'_>) -> Value {
    let mut unit = row.tree();
    let is_refused = is_refused(unit.retarget_idents(row.alloc));
    let mut answer = Object::new(row.alloc);
    answer.put("names", names_value(row, unit.names()));
    answer.put(
        "numbers",
        numbers_value(row, numbers(row, &unit).as_slice()),
    );
    stands(row, is_refused, answer.end(row))
}

/// The statement `let v4 = v3;` of the number 3.
fn statement(row: Row<'_>, number: usize) -> Value {
    let next = number.wrapping_add(1);
    let mut statement = Object::new(row.alloc);
    statement.text("k", "let");
    statement.put("name", row.printed(format!(in row.alloc; "v{next}")));
    statement.put("init", row.printed(format!(in row.alloc; "v{number}")));
    statement.end(row)
}

/// `fn v0() { let v1 = v0; let v2 = v1; let v3 = v2; .. }`, so many `statements`.
fn many_statements(row: Row<'_>) -> TranslationUnit {
    let mut statements = List::new(row.alloc);
    for number in 0..row.number("statements", 0) {
        statements.put(statement(row, number));
    }
    let mut body = Object::new(row.alloc);
    body.put("stmts", statements.end(row));
    let mut function = Object::new(row.alloc);
    function.put("body", body.end(row));
    function.text("k", "fn");
    function.text("name", "v0");
    unit_of_one(row, function.end(row))
}

/// How many names and identifiers many statements have once they are numbered, and the number of the last identifier.
pub fn many_retargeted(row: Row<'_>) -> Value {
    let mut unit = many_statements(row);
    let numbers = renumbered(row, &mut unit);
    let mut answer = Object::new(row.alloc);
    answer.number("identifiers", numbers.len());
    answer.number("last", *numbers.last().unwrap_or(&0));
    answer.number("names", unit.names().len());
    answer.end(row)
}

/// How many names the `tree` has once it was numbered so many `times`.
pub fn retargeted_times(row: Row<'_>) -> Value {
    let mut unit = row.tree();
    for _ in 0..row.number("times", 0) {
        row.done(unit.retarget_idents(row.alloc));
    }
    Value::from(unit.names().len())
}

/// The numbers of the entry points of the `tree`, and the names that its numbers have.
pub fn entry_points(row: Row<'_>) -> Value {
    let unit = row.tree();
    let found = row.or(unit.entry_points(row.alloc), Vec::new(row.alloc));
    let mut numbers = List::new(row.alloc);
    for ident in found.as_slice() {
        numbers.number(ident.0);
    }
    let mut answer = Object::new(row.alloc);
    answer.put("names", names_value(row, unit.names()));
    answer.put("numbers", numbers.end(row));
    answer.end(row)
}

/// What is left of the `tree` when it is stripped except for the names `keep`, with its numbers as they were read, and,
/// where that is refused, the unit as it is then.
pub fn stripped_or_left(row: Row<'_>) -> Value {
    let mut unit = row.tree();
    let kept = row.texts("keep");
    let is_refused = is_refused(strip_except(row.alloc, &mut unit, kept.as_slice()));
    stands(row, is_refused, row.tree_of(&unit))
}

/// What is left of the `tree`, numbered by what its identifiers mean, when it is stripped except for the names `keep`.
pub fn stripped(row: Row<'_>) -> Value {
    let mut unit = row.tree();
    row.done(unit.retarget_idents(row.alloc));
    let kept = row.texts("keep");
    row.done(strip_except(row.alloc, &mut unit, kept.as_slice()));
    row.tree_of(&unit)
}

/// The `tree` with the numbers that it was read with, one for each spelling; or, where there are `names`, with numbers by
/// meaning, and these names.
fn named(row: Row<'_>) -> TranslationUnit {
    let mut unit = row.tree();
    if row.has("names") {
        row.done(unit.retarget_idents(row.alloc));
        let (_, imports, directives, declarations) = unit.into_parts();
        let names = row.names("names");
        unit = row.made(TranslationUnit::from_parts(names, imports, directives, declarations));
    }
    unit
}

/// Whether the names of the `tree` with its `names` clash, and whether new numbers by meaning are the numbers that it has.
pub fn clash(row: Row<'_>) -> Value {
    let mut unit = named(row);
    let before = numbers(row, &unit);
    let mut answer = Object::new(row.alloc);
    answer.flag("clash", row.is(names_clash(row.alloc, &unit)));
    answer.flag("same_numbers", renumbered(row, &mut unit) == before);
    answer.end(row)
}

/// The number and the place of a binder.
fn binder_value(row: Row<'_>, binder: Binder) -> Value {
    numbers_value(row, &[binder.ident.0, binder.place])
}

/// What is told of an identifier that clashes.
fn clash_value(row: Row<'_>, clash: &Clash<'_>) -> Value {
    let mut answer = Object::new(row.alloc);
    match clash.reading {
        Reading::Captured(binder) => answer.put("captured", binder_value(row, binder)),
        Reading::Unbound => answer.flag("unbound", true),
        Reading::Duplicate(binder) => answer.put("duplicate", binder_value(row, binder)),
    }
    answer.number("ident", clash.ident.0);
    answer.text("name", clash.name);
    answer.number("place", clash.place);
    answer.end(row)
}

/// What clashes in the `tree` with its `names`.
pub fn clashes_told(row: Row<'_>) -> Value {
    let unit = named(row);
    let found = row.or(clashes(row.alloc, &unit), Vec::new(row.alloc));
    let mut answer = List::new(row.alloc);
    for clash in found.as_slice() {
        answer.put(clash_value(row, clash));
    }
    answer.end(row)
}

/// What is told of a word of a variable that a declared name captures.
fn word_clash_value(row: Row<'_>, clash: &WordClash<'_>) -> Value {
    let (binder, variable) = (clash.binder, clash.variable);
    let mut answer = Object::new(row.alloc);
    answer.put(
        "binder",
        numbers_value(row, &[binder.ident.0, binder.place]),
    );
    answer.text("name", clash.name);
    answer.put(
        "variable",
        numbers_value(row, &[variable.ident.0, variable.place]),
    );
    answer.text("word", clash.word);
    answer.end(row)
}

/// Which words of variables are captured in the `tree` with its `names`.
pub fn word_clashes_told(row: Row<'_>) -> Value {
    let unit = named(row);
    let found = row.or(word_clashes(row.alloc, &unit), Vec::new(row.alloc));
    let mut answer = List::new(row.alloc);
    for clash in found.as_slice() {
        answer.put(word_clash_value(row, clash));
    }
    answer.end(row)
}

/// The name of an identifier of a unit.
fn name_of(unit: &TranslationUnit, ident: Ident) -> &str {
    let names = unit.names();
    if ident.0 < names.len() {
        names.name(ident)
    } else {
        ""
    }
}

/// An identifier by its name, and the span of the innermost node round it.
fn spanned_value(row: Row<'_>, name: &str, span: Span) -> Value {
    let mut answer = Object::new(row.alloc);
    answer.text("name", name);
    answer.put(
        "span",
        numbers_value(row, &[span.start as usize, span.end as usize]),
    );
    answer.end(row)
}

/// The same of each identifier of the `tree`.
pub fn spans_told(row: Row<'_>) -> Value {
    let unit = row.tree();
    let spans = row.or(identifier_spans(row.alloc, &unit), Vec::new(row.alloc));
    let mut answer = List::new(row.alloc);
    for occurrence in identifiers(row, &unit).all.as_slice() {
        if let Some(span) = spans.get(occurrence.place) {
            answer.put(spanned_value(row, name_of(&unit, occurrence.ident), *span));
        }
    }
    answer.end(row)
}

/// Whether the names of many statements clash.
pub fn many_clash(row: Row<'_>) -> Value {
    Value::Bool(row.is(names_clash(row.alloc, &many_statements(row))))
}

/// How often in so many `times` the names of the `tree`, numbered by what they mean, clash.
pub fn clash_times(row: Row<'_>) -> Value {
    let mut unit = row.tree();
    row.done(unit.retarget_idents(row.alloc));
    let mut clashes: usize = 0;
    for _ in 0..row.number("times", 0) {
        if row.is(names_clash(row.alloc, &unit)) {
            clashes = clashes.wrapping_add(1);
        }
    }
    Value::from(clashes)
}
