//! Answers as values: lists and objects that are put together part by part.
ghost use Rattle.std.specs.Prelude.{◌<◌, length};

use crate::inputs::Row;
use serde_json::{Map, Value, put};
use std::alloc::Global;
use wesl_json::unit_of_value;
use wesl_tree::{Ident, ModulePath, Names, TranslationUnit};

/// A list that is put together item by item. That memory was wanting is noted at its end.
pub struct List {
    alloc: Global,
    items: Vec<Value>,
    is_refused: bool,
}

// By hand, so that it is proved once: a derived one is proved in each crate that lets go of a value.
impl Drop for List {
    fn drop(self) {
        let List {
            alloc: _,
            items: _,
            is_refused: _,
        } = self;
    }
}

impl List {
    /// The empty list.
    pub fn new(alloc: Global) -> List {
        List {
            alloc,
            items: Vec::new(alloc),
            is_refused: false,
        }
    }

    /// Adds an item.
    pub fn put(&mut self, item: Value) {
        self.is_refused |= self.items.push(item).is_err();
    }

    /// Adds a text.
    pub fn text(&mut self, text: &str) {
        match Value::try_from_str(self.alloc, text) {
            Ok(text) => self.put(text),
            Err(_) => self.is_refused = true,
        }
    }

    /// Adds a number.
    pub fn number(&mut self, number: usize) {
        self.put(Value::from(number));
    }

    /// The list as a value.
    pub fn end(self, row: Row<'_>) -> Value {
        let List {
            alloc: _,
            items,
            is_refused,
        } = self;
        row.refused_if(is_refused);
        Value::Array(items)
    }
}

/// An object that is put together member by member. That memory was wanting is noted at its end.
pub struct Object {
    alloc: Global,
    members: Map<String, Value>,
    is_refused: bool,
}

impl Drop for Object {
    fn drop(self) {
        let Object {
            alloc: _,
            members: _,
            is_refused: _,
        } = self;
    }
}

impl Object {
    /// The empty object.
    pub fn new(alloc: Global) -> Object {
        Object {
            alloc,
            members: Map::new(alloc),
            is_refused: false,
        }
    }

    /// Puts a value at a key.
    pub fn put(&mut self, key: &str, value: Value) {
        self.is_refused |= put(&mut self.members, self.alloc, key, value).is_err();
    }

    /// Puts a text at a key.
    pub fn text(&mut self, key: &str, text: &str) {
        match Value::try_from_str(self.alloc, text) {
            Ok(text) => self.put(key, text),
            Err(_) => self.is_refused = true,
        }
    }

    /// Puts a number at a key.
    pub fn number(&mut self, key: &str, number: usize) {
        self.put(key, Value::from(number));
    }

    /// Puts a truth value at a key.
    pub fn flag(&mut self, key: &str, flag: bool) {
        self.put(key, Value::Bool(flag));
    }

    /// The object as a value.
    pub fn end(self, row: Row<'_>) -> Value {
        let Object {
            alloc: _,
            members,
            is_refused,
        } = self;
        row.refused_if(is_refused);
        Value::Object(members)
    }
}

/// A list of numbers.
pub fn numbers_value(row: Row<'_>, numbers: &[usize]) -> Value {
    let mut list = List::new(row.alloc);
    for number in numbers {
        list.number(*number);
    }
    list.end(row)
}

/// The names of a table, by their numbers.
pub fn names_value(row: Row<'_>, names: &Names) -> Value {
    let mut list = List::new(row.alloc);
    for number in 0..names.len() {
        list.text(names.name(Ident(number)));
    }
    list.end(row)
}

/// An item as its path and its name.
pub fn item_value(row: Row<'_>, path: &ModulePath, name: &str) -> Value {
    let mut list = List::new(row.alloc);
    list.put(row.path_value(path));
    list.text(name);
    list.end(row)
}

/// An item as its path and its name, null where there is none.
pub fn found_value(row: Row<'_>, item: Option<(&ModulePath, &str)>) -> Value {
    match item {
        Some((path, name)) => item_value(row, path, name),
        None => Value::Null,
    }
}

/// The unit of one declaration, which is a tree.
pub fn unit_of_one(row: Row<'_>, declaration: Value) -> TranslationUnit {
    let mut tree = Object::new(row.alloc);
    tree.put("declarations", Value::Array(row.one(declaration)));
    row.unit_or_none(unit_of_value(row.alloc, &tree.end(row)))
}

/// The line of a row: its name, and what its call answers. Refused where something was noted of it.
pub fn line(row: Row<'_>, answer: Value) -> Result<String, anyhow::Error> {
    let mut line = Object::new(row.alloc);
    line.put("answer", answer);
    line.text("row", row.text("row"));
    let text = row.or(line.end(row).to_string(row.alloc), String::new(row.alloc));
    let noted = row.noted();
    if noted.is_empty() {
        Ok(text)
    } else {
        Err(anyhow::Error::msg(noted))
    }
}
