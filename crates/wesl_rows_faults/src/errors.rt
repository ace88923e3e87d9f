//! Conversions of errors, and their texts.
use serde_json::Value;
use std::fmt::Display;
use wesl_rows_base::{List, Row, located};
use wesl_tree_names::{Diagnostic, Error, ImportError, ModulePath, ResolveError, ValidateError};

/// What want of memory of a resolver, and a module that it does not find, are as errors, and an error as a diagnostic.
pub fn converted(row: Row<'_>) -> Value {
    let alloc = row.alloc;
    let missing = ResolveError::ModuleNotFound(ModulePath::new_root(alloc), String::new(alloc));
    let unread = Diagnostic::of(Error::NotJson);
    let mut errors = List::new(alloc);
    errors.put(row.answer_of(Error::of_resolve(ResolveError::Memory)));
    errors.put(row.answer_of(Error::of_resolve(missing)));
    errors.put(located(row, &unread));
    // as a generic function lets go of it, which costs the proof a fraction
    drop(unread);
    errors.end(row)
}

/// What want of memory is as an error: that of a resolver, and that of a resolver as the fault of an import.
pub fn unwrapped(row: Row<'_>) -> Value {
    let of_import = ImportError::from(ResolveError::Memory);
    let mut errors = List::new(row.alloc);
    errors.put(row.answer_of(Error::from(ResolveError::Memory)));
    errors.put(row.answer_of(Error::from(of_import)));
    errors.end(row)
}

/// The text of an error, which is let go here.
fn text_of<E: Display + Drop>(row: Row<'_>, error: E) -> Value {
    row.printed(format!(in row.alloc; "{error}"))
}

/// The texts of errors, which say what they hold.
pub fn told(row: Row<'_>) -> Value {
    let missing = ImportError::MissingDecl(row.path_of("super::super::a"), row.copy_of("x"));
    let private = ImportError::Private(row.copy_of("x"), row.path_of("p/q::a::b"));
    let ambiguous = ImportError::AmbiguousSymbol(row.copy_of("x"));
    let crowded = ImportError::TooManyFlags(row.path_of("package::a"));
    let absent = ResolveError::ModuleNotFound(row.path_of("self"), row.copy_of("no such file"));
    let mut texts = List::new(row.alloc);
    texts.put(text_of(row, missing));
    texts.put(text_of(row, private));
    texts.put(text_of(row, ambiguous));
    texts.put(text_of(row, crowded));
    texts.put(text_of(row, absent));
    texts.end(row)
}

/// A diagnostic of a name without meaning, in this module and this declaration.
fn undefined(row: Row<'_>, module: Option<ModulePath>, declaration: Option<String>) -> Diagnostic {
    Diagnostic {
        error: Error::from(ValidateError::UndefinedSymbol(row.copy_of("x"))),
        declaration,
        module,
        display: None,
        span: None,
        source: None,
    }
}

/// One that says where.
fn placed(row: Row<'_>) -> Diagnostic {
    let module = row.path_of("package::a");
    undefined(row, Some(module), Some(row.copy_of("f")))
}

/// The texts of a diagnostic that says no place, of one that says where, and of the latter within the refusal of a module.
pub fn told_where(row: Row<'_>) -> Value {
    let mut texts = List::new(row.alloc);
    texts.put(text_of(row, undefined(row, None, None)));
    texts.put(text_of(row, placed(row)));
    texts.put(match row.boxed(placed(row)) {
        Some(diagnostic) => text_of(row, Error::of_resolve(ResolveError::from(diagnostic))),
        None => Value::Null,
    });
    texts.end(row)
}
