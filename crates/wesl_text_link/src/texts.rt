//! What faults are told as.
use std::alloc::{AllocError, Global};
use wesl_text_homes::Libraries;
use wesl_tree::{CondCompError, Error, ImportError, ModulePath, ResolveError, ValidateError};

/// What a fault is, once what holds it is taken off.
#[derive(Clone, Copy)]
pub(crate) enum Cause<'d> {
    Condition(&'d CondCompError),
    Import(&'d ImportError),
    Refusal(&'d ResolveError),
    Validity(&'d ValidateError),
    Other(&'d Error),
}

/// What a fault is told as. Its paths are those of a link, and are told as the project has them.
pub(crate) fn text_of(
    alloc: Global,
    libraries: &Libraries,
    cause: Cause<'_>,
) -> Result<String, AllocError> {
    match cause {
        Cause::Condition(fault) => condition_text(alloc, fault),
        Cause::Import(fault) => import_text(alloc, libraries, fault),
        Cause::Refusal(fault) => refusal_text(alloc, libraries, fault),
        Cause::Validity(fault) => validity_text(alloc, fault),
        Cause::Other(fault) => other_text(alloc, fault),
    }
}

fn condition_text(alloc: Global, fault: &CondCompError) -> Result<String, AllocError> {
    match fault {
        CondCompError::InvalidFeatureFlag(flag) => {
            format!(in alloc; "the flag `{flag}` has template arguments")
        }
        CondCompError::UnexpectedFeatureFlag(flag) => {
            let flag = flag.as_str();
            format!(in alloc;
                "no answer is given to the flag `{flag}`; answer it by --feature {flag}=enable or {flag}=disable"
            )
        }
        CondCompError::InvalidExpression => String::from_str(
            alloc,
            "a condition holds flags, `true`, `false`, `!`, `&&`, `||` and parentheses, and nothing else",
        ),
        CondCompError::NoPrecedingIf => String::from_str(
            alloc,
            "`@elif` or `@else` without an `@if` directly before it",
        ),
        CondCompError::DuplicateIf => {
            String::from_str(alloc, "two of `@if`, `@elif` and `@else` on one element")
        }
    }
}

fn import_text(
    alloc: Global,
    libraries: &Libraries,
    fault: &ImportError,
) -> Result<String, AllocError> {
    match fault {
        ImportError::DuplicateSymbol(name) => {
            format!(in alloc; "`{name}` stands for two different things in this module")
        }
        ImportError::MissingDecl(path, name) => {
            let path = libraries.told_path(alloc, path)?;
            format!(in alloc;
                "the module `{path}` has nothing named `{name}`, as the features leave it"
            )
        }
        ImportError::Private(name, path) => {
            let path = libraries.told_path(alloc, path)?;
            format!(in alloc; "the module `{path}` imports `{name}` and does not publish it")
        }
        ImportError::AmbiguousSymbol(name) => {
            format!(in alloc; "`{name}` may stand for two different things where it is used")
        }
        ImportError::TooManyFlags(path) => {
            let path = libraries.told_path(alloc, path)?;
            format!(in alloc;
                "`{path}` has a name with two meanings and more than 16 flags; decide some by --feature"
            )
        }
        ImportError::ResolveError(_) => String::from_str(alloc, "a module is refused"),
    }
}

fn refusal_text(
    alloc: Global,
    libraries: &Libraries,
    fault: &ResolveError,
) -> Result<String, AllocError> {
    match fault {
        ResolveError::FileNotFound(file, reason) => format!(in alloc; "{file}: {reason}"),
        ResolveError::ModuleNotFound(path, reason) => {
            let path = libraries.told_path(alloc, path)?;
            missing_text(alloc, &path, reason.as_str())
        }
        ResolveError::Error(_) => String::from_str(alloc, "a module is refused"),
        ResolveError::Memory => String::from_str(alloc, "there was no memory"),
    }
}

fn missing_text(alloc: Global, path: &ModulePath, reason: &str) -> Result<String, AllocError> {
    let hint = if reason.starts_with("dependency") {
        "; give a package by --package NAME=FOLDER, one that another package uses by --package OTHER/NAME=FOLDER"
    } else {
        ""
    };
    format!(in alloc; "there is no module `{path}` ({reason}){hint}")
}

fn validity_text(alloc: Global, fault: &ValidateError) -> Result<String, AllocError> {
    match fault {
        ValidateError::UndefinedSymbol(name) => format!(in alloc; "nothing declares `{name}`"),
        ValidateError::ParamCount(name, takes, got) => {
            format!(in alloc;
                "`{name}` is called with the wrong number of arguments, {got}; it takes {takes}"
            )
        }
        ValidateError::NotCallable(name) => {
            format!(in alloc; "`{name}` is called, and is no function and no type")
        }
        ValidateError::Duplicate(name) => format!(in alloc; "`{name}` is declared twice"),
        ValidateError::Cycle(name, other) => {
            format!(in alloc; "`{name}` needs itself, by way of `{other}`")
        }
    }
}

fn other_text(alloc: Global, fault: &Error) -> Result<String, AllocError> {
    match fault {
        Error::ModuleLimit(limit) => format!(in alloc; "more than {limit} modules are needed"),
        Error::BadTree(reason) => String::from_str(alloc, reason.as_str()),
        Error::Memory => String::from_str(alloc, "there was no memory"),
        _ => String::from_str(alloc, "the link is refused"),
    }
}
