//! Units: their JSON form, their texts and their parts.
use serde_json::Value;
use wesl_json::{JsonText, text_of_value, unit_of_value, value_of_text, value_of_unit_2};
use wesl_resolve_base::UnitText;
use wesl_rows_base::{Object, Row, printed};
use wesl_tree::{GlobalDirective, Names, Span, Spanned, TranslationUnit};
use wesl_tree_copies::Copying;

/// What is written of the unit that the `tree` stands for, or the fault where it stands for none.
pub fn read(row: Row<'_>) -> Value {
    match row.told(unit_of_value(row.alloc, row.part("tree").value)) {
        Ok(unit) => row.tree_of(&unit),
        Err(fault) => fault,
    }
}

/// What is written with its places of the unit of the `tree`.
pub fn with_places(row: Row<'_>) -> Value {
    row.or(value_of_unit_2(row.alloc, &row.tree()), Value::Null)
}

/// Whether what is written of a unit is read with the unit's spelling, or the fault where it is not read.
pub fn again(row: Row<'_>, unit: &TranslationUnit) -> Value {
    match row.told(unit_of_value(row.alloc, &row.tree_of(unit))) {
        Ok(again) => Value::Bool(again.same_spelling(unit)),
        Err(fault) => fault,
    }
}

/// The same of a unit of a directive that enables the `name`, which may be empty.
pub fn enabled(row: Row<'_>) -> Value {
    let alloc = row.alloc;
    let enabling = GlobalDirective::Enable {
        attributes: Vec::new(alloc),
        names: row.one(row.owned("name")),
    };
    let directives = row.one(Spanned {
        node: enabling,
        span: Span { start: 3, end: 5 },
    });
    let unit = row.made(TranslationUnit::from_parts(
        Names::new(alloc),
        Vec::new(alloc),
        directives,
        Vec::new(alloc),
    ));
    again(row, &unit)
}

/// What is printed of the unit that the `text` says, or the fault where it says none.
pub fn text_read(row: Row<'_>) -> Value {
    match row.told(JsonText.read(row.alloc, row.text("text"))) {
        Ok(unit) => printed(row, &unit),
        Err(fault) => fault,
    }
}

/// The text of the value that the `text` is, or the fault where it is none.
pub fn value_read(row: Row<'_>) -> Value {
    match row.told(value_of_text(row.alloc, row.text("text"))) {
        Ok(value) => row.printed(text_of_value(row.alloc, &value)),
        Err(fault) => fault,
    }
}

/// How many nodes and names the unit of the `tree` has, and whether its parts are a unit again.
pub fn parted(row: Row<'_>) -> Value {
    let unit = row.tree();
    let mut counts = Object::new(row.alloc);
    counts.number("declarations", unit.global_declarations().len());
    counts.number("directives", unit.global_directives().len());
    counts.number("imports", unit.imports().len());
    counts.number("names", unit.names().len());
    let (names, imports, directives, declarations) = unit.into_parts();
    let again = TranslationUnit::from_parts(names, imports, directives, declarations);
    let mut answer = Object::new(row.alloc);
    answer.put("counts", counts.end(row));
    answer.flag("is_a_unit_again", again.is_some());
    answer.end(row)
}

/// The unit of the nodes of a `tree` in which the identifiers have these `numbers`, in document order, of a table of
/// these `names`, if each number has a name; where both are there. Otherwise the unit of the `tree`.
pub fn numbered(row: Row<'_>) -> Option<TranslationUnit> {
    let unit = row.tree();
    if row.has("names") && row.has("numbers") {
        let given = row.numbers("numbers");
        let mut copying = Copying {
            alloc: row.alloc,
            rest: given.as_slice(),
            is_refused: false,
        };
        let imports = copying.imports(unit.imports());
        let directives = copying.directives(unit.global_directives());
        let declarations = copying.globals(unit.global_declarations());
        row.done(copying.end(()));
        TranslationUnit::from_parts(row.names("names"), imports, directives, declarations)
    } else {
        Some(unit)
    }
}

/// What is written of the unit of a `tree` with other numbers, and null where an identifier has no name.
pub fn made(row: Row<'_>) -> Value {
    match &numbered(row) {
        Some(unit) => row.tree_of(unit),
        None => Value::Null,
    }
}

/// What is written of the unit of the `tree` without its voids.
pub fn without_voids(row: Row<'_>) -> Value {
    let mut unit = row.tree();
    unit.remove_voids();
    row.tree_of(&unit)
}
