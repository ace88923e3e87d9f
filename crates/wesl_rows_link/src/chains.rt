//! Links of chains of modules, each of which needs the next one's constant.
use crate::links::link;
use serde_json::Value;
use wesl_json::JsonText;
use wesl_resolve::VirtualResolver;
use wesl_rows_base::{Object, Row, unit_of_one};
use wesl_tree::TranslationUnit;

/// The text of the path of the module of a number.
fn path_text(row: Row<'_>, number: usize) -> String {
    row.or(
        format!(in row.alloc; "package::m{number}"),
        String::new(row.alloc),
    )
}

/// The constant of the module of a number, by its name.
fn reference(row: Row<'_>, number: usize) -> Value {
    let mut name = Object::new(row.alloc);
    name.text("name", "k");
    name.put("path", Value::String(path_text(row, number)));
    name.end(row)
}

/// `const k = package::m8::k;` for the module of number 7, and `const k = true;` for the last of so many
/// (`modules_in_chain`).
fn module(row: Row<'_>, number: usize) -> TranslationUnit {
    let next = number.wrapping_add(1);
    let init = if next < row.number("modules_in_chain", 1) {
        reference(row, next)
    } else {
        Value::Bool(true)
    };
    let mut declaration = Object::new(row.alloc);
    declaration.put("init", init);
    declaration.text("k", "const");
    declaration.text("name", "k");
    unit_of_one(row, declaration.end(row))
}

/// The modules `package::m0`, `package::m1`, .. of a chain of so many (`modules_in_chain`).
fn modules(row: Row<'_>) -> VirtualResolver<JsonText> {
    let mut modules = VirtualResolver::new(row.alloc, JsonText);
    for number in 0..row.number("modules_in_chain", 1) {
        let path = row.rooted_of(path_text(row, number).as_str());
        row.done(modules.add_translation_unit(row.alloc, path, module(row, number)));
    }
    modules
}

/// How many modules and turns the link of a chain has, from its first module, or how it is refused: of an eager link, or of
/// a lazy one that keeps the first constant.
pub fn counted(row: Row<'_>, is_eager: bool) -> Value {
    let path = row.rooted_of("package::m0");
    match row.told(link(row, is_eager, &["k"], module(row, 0), path, modules(row))) {
        Ok(found) => {
            let order = row.or(found.module_order(row.alloc), Vec::new(row.alloc));
            let mut answer = Object::new(row.alloc);
            answer.number("modules", order.len());
            answer.number("turns", found.turns());
            answer.end(row)
        }
        Err(fault) => fault,
    }
}
