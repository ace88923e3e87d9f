//! Why something is held in the link of a row.
use crate::links::linked;
use serde_json::Value;
use wesl_link::{Resolutions, Step};
use wesl_rows_base::{List, Object, Row, item_value};

/// A step: a kept name, a module, or an item of one.
fn step_value(row: Row<'_>, step: Step<'_>) -> Value {
    let mut value = Object::new(row.alloc);
    match step {
        Step::KeptName(name) => value.text("kept", name),
        Step::Module(path) => value.put("module", row.path_value(path)),
        Step::Item(path, name) => value.put("item", item_value(row, path, name)),
    }
    value.end(row)
}

/// The steps, null where there are none.
fn steps_value(row: Row<'_>, steps: Option<Vec<Step<'_>>>) -> Value {
    let Some(steps) = steps else {
        return Value::Null;
    };
    let mut values = List::new(row.alloc);
    for step in steps.as_slice() {
        values.put(step_value(row, *step));
    }
    values.end(row)
}

/// Why the `name` of the module at the path `of_module` is held in what was found.
fn item_told(row: Row<'_>, found: &Resolutions) -> Value {
    let path = row.path("of_module");
    let steps = row.or(found.reason(row.alloc, &path, row.text("name")), None);
    steps_value(row, steps)
}

/// Why the module at the path `of_module` is loaded in what was found.
fn module_told(row: Row<'_>, found: &Resolutions) -> Value {
    let path = row.path("of_module");
    let steps = row.or(found.module_reason(row.alloc, &path), None);
    steps_value(row, steps)
}

/// Why an item is held in a link of a row's modules.
pub fn of_item(row: Row<'_>, is_eager: bool) -> Value {
    match linked(row, is_eager) {
        Ok(found) => item_told(row, &found),
        Err(refusal) => row.answer_of(refusal),
    }
}

/// Why a module is loaded in a link of a row's modules.
pub fn of_module(row: Row<'_>, is_eager: bool) -> Value {
    match linked(row, is_eager) {
        Ok(found) => module_told(row, &found),
        Err(refusal) => row.answer_of(refusal),
    }
}

/// Why an item is held where nothing was linked.
pub fn of_nothing(row: Row<'_>) -> Value {
    item_told(row, &Resolutions::new_uninit(row.alloc))
}
