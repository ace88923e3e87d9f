//! What a row says under its keys, and what is noted of it.
ghost use Rattle.std.specs.Prelude.{◌≡◌, false};
ghost use Rattle.wesl_tree_names.specs.Path.{path_view, is_relative};

use crate::faults::Worded;
use crate::refusals::{MEMORY, Refusal};
use serde_json::Value;
use std::alloc::Global;
use std::cell::Cell;
use wesl_json::{JsonText, unit_of_value, value_of_unit, value_of_unit_2};
use wesl_resolve::VirtualResolver;
use wesl_tree::{Error, ModulePath, Names, TranslationUnit};

/// A row, or a part of one, with a note of what was wrong or wanting on the way. What reads an input or calls what is
/// refused answers something that takes no memory, and notes it: so nothing returns early, and `line` looks at the note.
#[derive(Clone, Copy)]
pub struct Row<'a> {
    /// what gives memory for its inputs and its answer
    pub alloc: Global,
    /// what it says
    pub value: &'a Value,
    /// what was wrong first, the empty text where nothing was
    note: &'a Cell<&'static str>,
}

impl<'a> Row<'a> {
    /// A row, with the note that it keeps.
    pub fn new(alloc: Global, value: &'a Value, note: &'a Cell<&'static str>) -> Row<'a> {
        Row { alloc, value, note }
    }

    /// What was wrong first, the empty text where nothing was.
    pub fn noted(self) -> &'static str {
        self.note.get()
    }

    /// Notes what is wrong, where nothing was before.
    pub fn wrong(self, what: &'static str) {
        if self.note.get().is_empty() {
            self.note.set(what);
        }
    }

    /// Notes want of memory, if this is so.
    pub fn refused_if(self, is_refused: bool) {
        if is_refused {
            self.wrong(MEMORY);
        }
    }

    /// What a call answers, or, where it was refused, which is noted, something else. An outcome that is moved here costs
    /// its caller's proof a fraction of what it costs to look at it there.
    pub fn or<T: Drop, E: Refusal>(self, outcome: Result<T, E>, other: T) -> T {
        match outcome {
            Ok(value) => value,
            Err(refusal) => {
                self.wrong(refusal.noted());
                other
            }
        }
    }

    /// What a call answers, or, where it was refused, its fault as an answer.
    pub fn told<T: Drop, E: Worded>(self, outcome: Result<T, E>) -> Result<T, Value> {
        match outcome {
            Ok(value) => Ok(value),
            Err(fault) => Err(self.answer_of(fault)),
        }
    }

    /// The answer of a fault, which is let go here.
    pub fn answer_of<E: Worded>(self, fault: E) -> Value {
        fault.words(self)
    }

    /// Notes why a call was refused, if it was.
    pub fn done(self, outcome: Result<(), Error>) {
        self.or(outcome, ());
    }

    /// What a call finds to be so, or false.
    pub fn is(self, outcome: Result<bool, Error>) -> bool {
        self.or(outcome, false)
    }

    /// Adds an item to a list.
    pub fn push<T: Drop>(self, items: &mut Vec<T>, item: T) {
        self.refused_if(items.push(item).is_err());
    }

    /// A list of one item, or the empty one.
    pub fn one<T: Drop>(self, item: T) -> Vec<T> {
        let mut items = Vec::new(self.alloc);
        self.push(&mut items, item);
        items
    }

    /// A value in a box, or none.
    pub fn boxed<T: Drop>(self, value: T) -> Option<Box<T>> {
        match Box::new(self.alloc, value) {
            Ok(boxed) => Some(boxed),
            Err(_) => {
                self.refused_if(true);
                None
            }
        }
    }

    /// The part at a key, or the whole.
    pub fn part(self, key: &str) -> Row<'a> {
        match self.value.get(key) {
            Some(value) => self.of(value),
            None => {
                self.wrong("no such key");
                self
            }
        }
    }

    /// A part that is this value.
    pub fn of<'b>(self, value: &'b Value) -> Row<'b>
    where
        'a: 'b,
    {
        Row {
            alloc: self.alloc,
            value,
            note: self.note,
        }
    }

    /// Whether there is something at a key.
    pub fn has(self, key: &str) -> bool {
        self.value.get(key).is_some()
    }

    /// The text at a key, or the empty one.
    pub fn text(self, key: &str) -> &'a str {
        match self.value.get(key) {
            Some(value) => text_of(value),
            None => "",
        }
    }

    /// A text of its own, which is this one.
    pub fn copy_of(self, text: &str) -> String {
        self.or(String::from_str(self.alloc, text), String::new(self.alloc))
    }

    /// A text of its own, which is that at a key.
    pub fn owned(self, key: &str) -> String {
        self.copy_of(self.text(key))
    }

    /// A number in decimal digits.
    pub fn digits(self, number: usize) -> String {
        self.or(format!(in self.alloc; "{number}"), String::new(self.alloc))
    }

    /// The list at a key, or the empty one.
    pub fn list(self, key: &str) -> &'a [Value] {
        match self.value.get(key) {
            Some(Value::Array(items)) => items.as_slice(),
            _ => &[],
        }
    }

    /// The whole number at a key, or `other`.
    pub fn number(self, key: &str, other: usize) -> usize {
        match self.value.get(key) {
            Some(Value::Number(number)) => whole(number.as_u64()).unwrap_or(other),
            _ => other,
        }
    }

    /// The texts of the list at a key.
    pub fn texts(self, key: &str) -> Vec<&'a str> {
        let mut texts = Vec::new(self.alloc);
        for item in self.list(key) {
            self.push(&mut texts, text_of(item));
        }
        texts
    }

    /// The texts of the list at a key, each of its own.
    pub fn owned_texts(self, key: &str) -> Vec<String> {
        let mut texts = Vec::new(self.alloc);
        for item in self.list(key) {
            self.push(&mut texts, self.copy_of(text_of(item)));
        }
        texts
    }

    /// The whole numbers of the list at a key.
    pub fn numbers(self, key: &str) -> Vec<usize> {
        let mut numbers = Vec::new(self.alloc);
        for item in self.list(key) {
            self.push(&mut numbers, whole(item.as_u64()).unwrap_or(0));
        }
        numbers
    }

    /// A table of the texts of the list at a key.
    pub fn names(self, key: &str) -> Names {
        let mut names = Names::new(self.alloc);
        for item in self.list(key) {
            self.refused_if(is_refused(names.add(text_of(item))));
        }
        names
    }

    /// The path that a text says, or the root of the package.
    pub fn path_of(self, text: &str) -> ModulePath {
        match self.or(ModulePath::parse(self.alloc, text), None) {
            Some(path) => path,
            None => {
                self.wrong("no path");
                ModulePath::new_root(self.alloc)
            }
        }
    }

    /// The path whose text stands at a key.
    pub fn path(self, key: &str) -> ModulePath {
        self.path_of(self.text(key))
    }

    /// The path that a text says, which is not relative.
    pub fn rooted_of(self, text: &str) -> ModulePath
        ensures { is_relative (path_view result) ≡ false }
    {
        let path = self.path_of(text);
        if path.is_relative() {
            self.wrong("a relative path");
            ModulePath::new_root(self.alloc)
        } else {
            path
        }
    }

    /// The path at a key, which is not relative.
    pub fn rooted(self, key: &str) -> ModulePath
        ensures { is_relative (path_view result) ≡ false }
    {
        self.rooted_of(self.text(key))
    }

    /// The unit that a call answers, or the empty one.
    pub fn unit_or_none(self, outcome: Result<TranslationUnit, Error>) -> TranslationUnit {
        self.or(outcome, TranslationUnit::new(self.alloc))
    }

    /// The unit that is made, or the empty one.
    pub fn made(self, unit: Option<TranslationUnit>) -> TranslationUnit {
        match unit {
            Some(unit) => unit,
            None => {
                self.wrong("a number without a name");
                TranslationUnit::new(self.alloc)
            }
        }
    }

    /// The unit whose tree stands at a key.
    pub fn unit(self, key: &str) -> TranslationUnit {
        self.unit_or_none(unit_of_value(self.alloc, self.part(key).value))
    }

    /// The unit of the `tree`.
    pub fn tree(self) -> TranslationUnit {
        self.unit("tree")
    }

    /// A resolver of the modules that are listed at a key, each with its path and its source or its unit.
    pub fn modules(self, key: &str) -> VirtualResolver<JsonText> {
        let mut modules = VirtualResolver::new(self.alloc, JsonText);
        for value in self.list(key) {
            self.done(self.of(value).added_to(&mut modules));
        }
        modules
    }

    /// Adds the module that this is, at its `path`, with its `unit` or its `source`.
    pub fn added_to(self, modules: &mut VirtualResolver<JsonText>) -> Result<(), Error> {
        let path = self.rooted("path");
        if self.has("unit") {
            modules.add_translation_unit(self.alloc, path, self.unit("unit"))
        } else {
            modules.add_module(path, self.owned("source"))
        }
    }

    /// A text as a value.
    pub fn text_value(self, text: &str) -> Value {
        Value::String(self.copy_of(text))
    }

    /// A text as a value, null where there is none.
    pub fn found_text(self, text: Option<&str>) -> Value {
        match text {
            Some(text) => self.text_value(text),
            None => Value::Null,
        }
    }

    /// The text that a call answers as a value.
    pub fn printed<E: Refusal>(self, outcome: Result<String, E>) -> Value {
        Value::String(self.or(outcome, String::new(self.alloc)))
    }

    /// The text of a path as a value.
    pub fn path_value(self, path: &ModulePath) -> Value {
        self.printed(path.to_text(self.alloc))
    }

    /// The tree of a unit as a value.
    pub fn tree_of(self, unit: &TranslationUnit) -> Value {
        self.or(value_of_unit(self.alloc, unit), Value::Null)
    }

    /// The same with the places of its nodes, where the row asks for that: with `form` 2.
    pub fn written(self, unit: &TranslationUnit) -> Value {
        if self.number("form", 1) == 2 {
            self.or(value_of_unit_2(self.alloc, unit), Value::Null)
        } else {
            self.tree_of(unit)
        }
    }
}

/// Whether a call was refused. An outcome that is moved here costs its caller's proof little, as with `Row::or`.
pub fn is_refused<T: Drop, E: Drop>(outcome: Result<T, E>) -> bool {
    outcome.is_err()
}

/// The text that a value is, or the empty one.
pub fn text_of(value: &Value) -> &str {
    match value {
        Value::String(text) => text.as_str(),
        _ => "",
    }
}

/// A whole number that is no greater than an index.
fn whole(number: Option<u64>) -> Option<usize> {
    match number {
        Some(number) => usize::try_from(number).ok(),
        None => None,
    }
}
