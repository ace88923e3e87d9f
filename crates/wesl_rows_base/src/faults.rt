//! Refusals as answers: the name of the fault, and its arguments in words.
use crate::answers::{List, Object};
use crate::inputs::Row;
use serde_json::Value;
use wesl_tree::{
    CondCompError, Diagnostic, Error, ImportError, ModulePath, ResolveError, Span, ValidateError,
};

/// A fault with this name and these arguments, as an object to which more may be put.
fn told(row: Row<'_>, name: &str, arguments: List) -> Object {
    let mut answer = Object::new(row.alloc);
    answer.put("args", arguments.end(row));
    answer.text("fault", name);
    answer
}

/// A fault without arguments.
fn bare(row: Row<'_>, name: &str) -> Object {
    told(row, name, List::new(row.alloc))
}

/// A fault of a name.
fn of_name(row: Row<'_>, name: &str, argument: &str) -> Object {
    let mut arguments = List::new(row.alloc);
    arguments.text(argument);
    told(row, name, arguments)
}

/// A fault of two names.
fn of_names(row: Row<'_>, name: &str, first: &str, second: &str) -> Object {
    let mut arguments = List::new(row.alloc);
    arguments.text(first);
    arguments.text(second);
    told(row, name, arguments)
}

/// A fault whose arguments are a path and a text, in this order.
fn at_path(row: Row<'_>, name: &str, path: &ModulePath, text: &str) -> Object {
    let mut arguments = List::new(row.alloc);
    arguments.put(row.path_value(path));
    arguments.text(text);
    told(row, name, arguments)
}

/// The answer of a fault with this name and without arguments.
pub fn fault(row: Row<'_>, name: &str) -> Value {
    bare(row, name).end(row)
}

/// The answer of a call that was refused for want of memory, after which this stands.
pub fn refused(row: Row<'_>, stands: Value) -> Value {
    let mut answer = bare(row, "Memory");
    answer.put("stands", stands);
    answer.end(row)
}

/// What stands after a call, and that it was refused, if it was.
pub fn stands(row: Row<'_>, is_refused: bool, stands: Value) -> Value {
    if is_refused {
        refused(row, stands)
    } else {
        stands
    }
}

/// What a call answers that was refused, where that is told in words.
pub trait Worded: Drop {
    /// The words, as an answer.
    fn words(&self, row: Row<'_>) -> Value;
}

impl Worded for Error {
    fn words(&self, row: Row<'_>) -> Value {
        object_of(row, self).end(row)
    }
}

/// Of a diagnostic its error alone is told.
impl Worded for Diagnostic {
    fn words(&self, row: Row<'_>) -> Value {
        self.error.words(row)
    }
}

/// A refusal of a resolver; of what a diagnostic tells there, where it was too.
impl Worded for ResolveError {
    fn words(&self, row: Row<'_>) -> Value {
        match self {
            ResolveError::Error(diagnostic) => located(row, diagnostic),
            ResolveError::Memory => fault(row, "Memory"),
            error => of_refusal(row, error).end(row),
        }
    }
}

/// The answer of a diagnostic, with the declaration that holds the fault.
pub fn declared(row: Row<'_>, diagnostic: &Diagnostic) -> Value {
    let mut answer = object_of(row, &diagnostic.error);
    answer.put("declaration", owned_value(row, &diagnostic.declaration));
    answer.end(row)
}

/// Puts a span as its two numbers, where one is told.
pub fn put_span(row: Row<'_>, answer: &mut Object, span: &Option<Span>) {
    if let Some(span) = span {
        let mut ends = List::new(row.alloc);
        ends.put(Value::from(span.start));
        ends.put(Value::from(span.end));
        answer.put("span", ends.end(row));
    }
}

/// The answer of a diagnostic, with the module, its source and its display name, and the place and the declaration where
/// they are told.
pub fn located(row: Row<'_>, diagnostic: &Diagnostic) -> Value {
    let mut answer = object_of(row, &diagnostic.error);
    put_span(row, &mut answer, &diagnostic.span);
    if let Some(name) = &diagnostic.declaration {
        answer.text("declaration", name.as_str());
    }
    let module = match &diagnostic.module {
        Some(path) => row.path_value(path),
        None => Value::Null,
    };
    answer.put("module", module);
    answer.put("source", owned_value(row, &diagnostic.source));
    answer.put("display", owned_value(row, &diagnostic.display));
    answer.end(row)
}

/// A text, null where there is none.
fn owned_value(row: Row<'_>, text: &Option<String>) -> Value {
    match text {
        Some(text) => row.text_value(text.as_str()),
        None => Value::Null,
    }
}

/// An error as an object.
fn object_of(row: Row<'_>, error: &Error) -> Object {
    match error {
        Error::CondComp(error) => of_condition(row, error),
        Error::Import(error) => of_import(row, error),
        Error::Resolve(error) => of_refusal(row, error),
        Error::Validate(error) => of_validation(row, error),
        Error::ModuleLimit(limit) => of_name(row, "ModuleLimit", row.digits(*limit).as_str()),
        Error::NotNormalType => bare(row, "NotNormalType"),
        Error::NotJson => bare(row, "NotJson"),
        Error::BadTree(place) => of_name(row, "BadTree", place.as_str()),
        Error::BadBundle(place) => of_name(row, "BadBundle", place.as_str()),
        Error::Memory => bare(row, "Memory"),
    }
}

/// A fault of a condition.
fn of_condition(row: Row<'_>, error: &CondCompError) -> Object {
    match error {
        CondCompError::InvalidFeatureFlag(name) => {
            of_name(row, "InvalidFeatureFlag", name.as_str())
        }
        CondCompError::UnexpectedFeatureFlag(name) => {
            of_name(row, "UnexpectedFeatureFlag", name.as_str())
        }
        CondCompError::InvalidExpression => bare(row, "InvalidExpression"),
        CondCompError::NoPrecedingIf => bare(row, "NoPrecedingIf"),
        CondCompError::DuplicateIf => bare(row, "DuplicateIf"),
    }
}

/// A fault of a name that is not published by the module at a path.
fn private(row: Row<'_>, name: &str, path: &ModulePath) -> Object {
    let mut arguments = List::new(row.alloc);
    arguments.text(name);
    arguments.put(row.path_value(path));
    told(row, "Private", arguments)
}

/// A fault of the module at a path.
fn of_path(row: Row<'_>, name: &str, path: &ModulePath) -> Object {
    let mut arguments = List::new(row.alloc);
    arguments.put(row.path_value(path));
    told(row, name, arguments)
}

/// A fault of an import or a path.
fn of_import(row: Row<'_>, error: &ImportError) -> Object {
    match error {
        ImportError::DuplicateSymbol(name) => of_name(row, "DuplicateSymbol", name.as_str()),
        ImportError::MissingDecl(path, name) => at_path(row, "MissingDecl", path, name.as_str()),
        ImportError::Private(name, path) => private(row, name.as_str(), path),
        ImportError::AmbiguousSymbol(name) => of_name(row, "AmbiguousSymbol", name.as_str()),
        ImportError::TooManyFlags(path) => of_path(row, "TooManyFlags", path),
        ImportError::ResolveError(error) => of_refusal(row, error),
    }
}

/// A refusal of a resolver within an error; of what a diagnostic tells there, that it is another fault, and of want of memory,
/// which no error is to hold, that one does.
fn of_refusal(row: Row<'_>, error: &ResolveError) -> Object {
    match error {
        ResolveError::ModuleNotFound(path, reason) => {
            at_path(row, "ModuleNotFound", path, reason.as_str())
        }
        ResolveError::FileNotFound(file, reason) => {
            of_names(row, "FileNotFound", file.as_str(), reason.as_str())
        }
        ResolveError::Error(_) => bare(row, "another fault"),
        ResolveError::Memory => bare(row, "Memory within an error"),
    }
}

/// A fault of a call that takes so many arguments and got others.
fn of_count(row: Row<'_>, name: &str, expected: usize, got: usize) -> Object {
    let mut arguments = List::new(row.alloc);
    arguments.text(name);
    arguments.put(Value::String(row.digits(expected)));
    arguments.put(Value::String(row.digits(got)));
    told(row, "ParamCount", arguments)
}

/// A fault of a module.
fn of_validation(row: Row<'_>, error: &ValidateError) -> Object {
    match error {
        ValidateError::UndefinedSymbol(name) => of_name(row, "UndefinedSymbol", name.as_str()),
        ValidateError::ParamCount(name, expected, got) => {
            of_count(row, name.as_str(), *expected, *got)
        }
        ValidateError::NotCallable(name) => of_name(row, "NotCallable", name.as_str()),
        ValidateError::Duplicate(name) => of_name(row, "Duplicate", name.as_str()),
        ValidateError::Cycle(name, via) => of_names(row, "Cycle", name.as_str(), via.as_str()),
    }
}
