//! Paths of modules, and tables of names.
use serde_json::Value;
use wesl::{Ident, ModulePath, Names, PathOrigin};
use wesl_rows_base::{List, Object, Row, names_value, text_of};

/// Where a path begins: at the root, so many modules up, or in a package.
fn origin(row: Row<'_>, origin: &PathOrigin) -> Value {
    match origin {
        PathOrigin::Absolute => row.text_value("absolute"),
        PathOrigin::Relative(up) => {
            let mut answer = Object::new(row.alloc);
            answer.number("relative", *up);
            answer.end(row)
        }
        PathOrigin::Package(name) => {
            let mut answer = Object::new(row.alloc);
            answer.text("package", name.as_str());
            answer.end(row)
        }
    }
}

/// A path's parts and its text.
fn described(row: Row<'_>, path: &ModulePath) -> Value {
    let mut components = List::new(row.alloc);
    for component in &path.components {
        components.text(component.as_str());
    }
    let mut answer = Object::new(row.alloc);
    answer.put("components", components.end(row));
    answer.put("origin", origin(row, &path.origin));
    answer.put("text", row.path_value(path));
    answer.end(row)
}

/// The path that the `text` says, and null where it says none.
pub fn parsed(row: Row<'_>) -> Value {
    match &row.or(ModulePath::parse(row.alloc, row.text("text")), None) {
        Some(path) => described(row, path),
        None => Value::Null,
    }
}

/// The root with the names `pushed`, joined with the `names`.
pub fn joined(row: Row<'_>) -> Value {
    let mut path = ModulePath::new_root(row.alloc);
    for name in row.list("pushed") {
        row.done(path.push(text_of(name)));
    }
    let names = row.owned_texts("names");
    let whole = path.join(row.alloc, names.as_slice());
    described(row, &row.or(whole, ModulePath::new_root(row.alloc)))
}

/// How two paths are ordered.
pub fn order(first: &ModulePath, second: &ModulePath) -> &'static str {
    if first == second {
        "equal"
    } else if first < second {
        "less"
    } else {
        "greater"
    }
}

/// A copy of the `path`, how it is ordered to it, and a copy of where the path begins.
pub fn copied(row: Row<'_>) -> Value {
    let path = row.path("path");
    let copy = row.or(path.try_clone(row.alloc), ModulePath::new_root(row.alloc));
    let begins = row.or(path.origin.try_clone(row.alloc), PathOrigin::Absolute);
    let mut answer = Object::new(row.alloc);
    answer.put("copy", described(row, &copy));
    answer.text("order", order(&copy, &path));
    answer.put("origin", origin(row, &begins));
    answer.end(row)
}

/// The numbers of the `names` as they are added, and the names of a copy of their table.
pub fn names_added(row: Row<'_>) -> Value {
    let mut names = Names::new(row.alloc);
    let mut numbers = List::new(row.alloc);
    for text in row.list("names") {
        numbers.number(row.or(names.add(text_of(text)), Ident(0)).0);
    }
    let copy = row.or(names.try_clone(row.alloc), Names::new(row.alloc));
    let mut answer = Object::new(row.alloc);
    answer.put("numbers", numbers.end(row));
    answer.put("copy", names_value(row, &copy));
    answer.end(row)
}
