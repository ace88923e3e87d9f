//! The error types. They hold one another: a refusal of a resolver may hold the diagnostic of a
//! unit, whose error may be a refusal of a resolver.
//!
//! Want of memory is `Memory` wherever it comes up, and no call wraps it in another error.
ghost use Rattle.std.specs.Prelude.{◌≡◌};
ghost use Rattle.wesl_tree_names.specs.Errors.{error_of_resolve, import_is_memory, is_memory, resolver_is_memory};
ghost use Rattle.wesl_tree_names.specs.Errors.{span_told, IsBare, IsPlaced};
ghost use Rattle.wesl_tree_names.specs.declared.errors.Diagnostic.{out-Diagnostic};

use crate::path::ModulePath;
use std::alloc::{AllocError, AllocFailed};
use std::fmt;
use thiserror::Error;
use wesl_tree_base::{CondCompError, Span, ValidateError};

/// A fault with the place where it was found.
#[cycle(errors)]
pub struct Diagnostic {
    /// What the fault is.
    pub error: Error,
    /// The name of the module's declaration that holds the fault. Validators alone set it.
    pub declaration: Option<String>,
    /// The path of the module that holds the fault.
    pub module: Option<ModulePath>,
    /// The name by which the module is shown, as a file's.
    pub display: Option<String>,
    /// The place of the fault in the module's source.
    pub span: Option<Span>,
    /// The source of the module.
    pub source: Option<String>,
}

impl Drop for Diagnostic {
    #[cycle(errors)]
    fn drop(self) {
        let Diagnostic {
            error: _,
            declaration: _,
            module: _,
            display: _,
            span: _,
            source: _,
        } = self;
    }
}

/// Why a resolver hands out no module.
#[cycle(errors)]
#[derive(Drop, Error)]
pub enum ResolveError {
    /// A file is not there, for resolvers that read files. It carries the file's name and the reason.
    #[error("file not found: `{0}` ({1})")]
    FileNotFound(String, String),
    /// The resolver has no module at a path. It carries the path and the reason.
    #[error("module not found: `{0}` ({1})")]
    ModuleNotFound(ModulePath, String),
    /// The module is there, and cannot be read or is refused. It carries the diagnostic.
    #[error("module refused: {0}")]
    Error(Box<Diagnostic>),
    /// Want of memory.
    #[error("out of memory")]
    Memory,
}

/// Why an import or a path is refused (WESL, "Imports" and "Visibility").
#[cycle(errors)]
#[derive(Drop, Error)]
pub enum ImportError {
    /// Two declarations or imports of one module have one name. It carries the name.
    #[error("two symbols have the name `{0}`")]
    DuplicateSymbol(String),
    /// The resolver refuses a module that is reached. It carries the resolver's refusal, which is not
    /// want of memory.
    #[error(transparent)]
    ResolveError(ResolveError),
    /// A module has no declaration of a name. It carries the module's path and the name.
    #[error("no declaration `{1}` in `{0}`")]
    MissingDecl(ModulePath, String),
    /// A name is an import of a module that does not publish it. It carries the name and the path of the
    /// module.
    #[error("`{0}` of `{1}` is private")]
    Private(String, ModulePath),
    /// A name has binders with several targets, and may stand for two of them where it is used. It carries
    /// the name.
    #[error("`{0}` may stand for two symbols")]
    AmbiguousSymbol(String),
    /// A module has a name with several targets, and more than 16 feature flags. It carries the module's path.
    #[error("too many feature flags in `{0}`")]
    TooManyFlags(ModulePath),
}

/// Any fault of the linker.
#[cycle(errors)]
#[derive(Drop, Error)]
pub enum Error {
    /// A fault of a conditional attribute.
    #[error(transparent)]
    CondComp(CondCompError),
    /// A fault of an import or a path.
    #[error(transparent)]
    Import(ImportError),
    /// A refusal of a resolver that was asked directly.
    #[error(transparent)]
    Resolve(ResolveError),
    /// A fault that a validator found.
    #[error(transparent)]
    Validate(ValidateError),
    /// More modules are reached than the caller allows. It carries how many are allowed.
    #[error("more than {0} modules")]
    ModuleLimit(usize),
    /// A type expression stands where it has no form of its own.
    #[error("not a type")]
    NotNormalType,
    /// The input is no JSON text.
    #[error("not JSON")]
    NotJson,
    /// The JSON value is no tree. It carries the place in the value where that shows.
    #[error("not a tree at `{0}`")]
    BadTree(String),
    /// The JSON value is no bundle. It carries the place in the value where that shows.
    #[error("not a bundle at `{0}`")]
    BadBundle(String),
    /// Want of memory.
    #[error("out of memory")]
    Memory,
}

/// The text of a diagnostic: the module's path, the declaration's name, and the error's text, as far as they
/// are told.
impl fmt::Display for Diagnostic {
    #[cycle(errors)]
    fn fmt<W: fmt::Write>(&self, f: &mut fmt::Formatter<W>) -> fmt::Result {
        if let Some(module) = &self.module {
            write!(f, "in `{module}`: ")?;
        }
        if let Some(declaration) = &self.declaration {
            write!(f, "in `{declaration}`: ")?;
        }
        fmt::Display::fmt(&self.error, f)
    }
}

/// The text that `Display` writes.
impl fmt::Debug for Diagnostic {
    fn fmt<W: fmt::Write>(&self, f: &mut fmt::Formatter<W>) -> fmt::Result {
        fmt::Display::fmt(self, f)
    }
}

/// The text that `Display` writes.
impl fmt::Debug for ResolveError {
    fn fmt<W: fmt::Write>(&self, f: &mut fmt::Formatter<W>) -> fmt::Result {
        fmt::Display::fmt(self, f)
    }
}

/// The text that `Display` writes.
impl fmt::Debug for ImportError {
    fn fmt<W: fmt::Write>(&self, f: &mut fmt::Formatter<W>) -> fmt::Result {
        fmt::Display::fmt(self, f)
    }
}

/// The text that `Display` writes.
impl fmt::Debug for Error {
    fn fmt<W: fmt::Write>(&self, f: &mut fmt::Formatter<W>) -> fmt::Result {
        fmt::Display::fmt(self, f)
    }
}

impl std::error::Error for Diagnostic {}

/// A span as a diagnostic tells it.
fn told(span: Span) -> Option<Span>
    ensures { result ≡ span_told span }
{
    if span.start == 0 && span.end == 0 {
        None
    } else {
        Some(span)
    }
}

impl Error {
    /// The error of a link whose resolver refuses a module: want of memory is told as that, and anything
    /// else is a fault of an import.
    pub fn of_resolve(fault: ResolveError) -> Error
        ensures { result ≡ error_of_resolve fault }
    {
        Error::from(ImportError::ResolveError(fault))
    }

    /// Whether the error is want of memory, also where somebody wrapped it in the refusal of a resolver, in
    /// a fault of an import or in a diagnostic.
    #[cycle(memory)]
    pub fn is_memory(&self) -> bool
        ensures { result ≡ is_memory self.now }
    {
        match self {
            Error::Memory => true,
            Error::Resolve(inner) => inner.is_memory(),
            Error::Import(inner) => inner.is_memory(),
            _ => false,
        }
    }
}

impl ResolveError {
    /// Whether the refusal is want of memory, also where somebody wrapped it in a diagnostic.
    #[cycle(memory)]
    pub fn is_memory(&self) -> bool
        ensures { result ≡ resolver_is_memory self.now }
    {
        match self {
            ResolveError::Memory => true,
            ResolveError::Error(inner) => inner.error.is_memory(),
            _ => false,
        }
    }
}

impl ImportError {
    /// Whether the fault is a resolver's want of memory, which somebody wrapped in it.
    #[cycle(memory)]
    pub fn is_memory(&self) -> bool
        ensures { result ≡ import_is_memory self.now }
    {
        match self {
            ImportError::ResolveError(inner) => inner.is_memory(),
            _ => false,
        }
    }
}

impl Diagnostic {
    /// The diagnostic of an error of which no place is known: the other fields are `None`.
    pub fn of(error: Error) -> Diagnostic
        ensures { IsBare error result }
    {
        Diagnostic {
            error,
            declaration: None,
            module: None,
            display: None,
            span: None,
            source: None,
        }
    }

    /// The diagnostic of an error at a place of its module's source, which is told unless it is `0..0`: the
    /// other fields are `None`.
    pub fn at(error: Error, span: Span) -> Diagnostic
        ensures { IsPlaced error span result }
    {
        Diagnostic {
            error,
            declaration: None,
            module: None,
            display: None,
            span: told(span),
            source: None,
        }
    }

    /// The error alone: its place is let go.
    pub fn into_error(self) -> Error
        ensures { result ≡ (out-Diagnostic self).error }
    {
        let Diagnostic {
            error,
            declaration: _,
            module: _,
            display: _,
            span: _,
            source: _,
        } = self;
        error
    }
}

impl From<AllocError> for ResolveError {
    ghost use Rattle.std.specs.Prelude.{◌≡◌};
    ghost use Rattle.wesl_tree_names.specs.declared.errors.ResolveError as resolve_error;

    ghost from_gives = { λ _ e. e ≡ resolve_error.Memory };

    fn from(_: AllocError) -> ResolveError {
        ResolveError::Memory
    }
}

impl<T: Drop> From<AllocFailed<T>> for ResolveError {
    ghost use Rattle.std.specs.Prelude.{◌≡◌};
    ghost use Rattle.wesl_tree_names.specs.declared.errors.ResolveError as resolve_error;

    ghost from_gives = { λ _ e. e ≡ resolve_error.Memory };

    fn from(_: AllocFailed<T>) -> ResolveError {
        ResolveError::Memory
    }
}

impl From<AllocError> for Error {
    ghost use Rattle.std.specs.Prelude.{◌≡◌};
    ghost use Rattle.wesl_tree_names.specs.declared.errors.Error as error;

    ghost from_gives = { λ _ e. e ≡ error.Memory };

    fn from(_: AllocError) -> Error {
        Error::Memory
    }
}

impl<T: Drop> From<AllocFailed<T>> for Error {
    ghost use Rattle.std.specs.Prelude.{◌≡◌};
    ghost use Rattle.wesl_tree_names.specs.declared.errors.Error as error;

    ghost from_gives = { λ _ e. e ≡ error.Memory };

    fn from(_: AllocFailed<T>) -> Error {
        Error::Memory
    }
}

/// Want of memory is told as that, and any other error is held with its place.
impl From<Box<Diagnostic>> for ResolveError {
    ghost use Rattle.std.specs.Prelude.{◌≡◌};
    ghost use Rattle.wesl_tree_names.specs.Errors.{refusal_of_diagnostic};

    ghost from_gives = { λ d e. e ≡ refusal_of_diagnostic d };

    fn from(diagnostic: Box<Diagnostic>) -> ResolveError {
        if diagnostic.error.is_memory() {
            ResolveError::Memory
        } else {
            ResolveError::Error(diagnostic)
        }
    }
}

impl From<ResolveError> for ImportError {
    ghost use Rattle.std.specs.Prelude.{◌≡◌};
    ghost use Rattle.wesl_tree_names.specs.declared.errors.ImportError as import_error;

    ghost from_gives = { λ r e. e ≡ import_error.ResolveError r };

    fn from(fault: ResolveError) -> ImportError {
        ImportError::ResolveError(fault)
    }
}

impl From<CondCompError> for Error {
    ghost use Rattle.std.specs.Prelude.{◌≡◌};
    ghost use Rattle.wesl_tree_names.specs.declared.errors.Error as error;

    ghost from_gives = { λ fault e. e ≡ error.CondComp fault };

    fn from(fault: CondCompError) -> Error {
        Error::CondComp(fault)
    }
}

/// Want of memory is told as that, and any other fault is held as it is.
impl From<ImportError> for Error {
    ghost use Rattle.std.specs.Prelude.{◌≡◌};
    ghost use Rattle.wesl_tree_names.specs.Errors.{error_of_import};

    ghost from_gives = { λ fault e. e ≡ error_of_import fault };

    fn from(fault: ImportError) -> Error {
        if fault.is_memory() {
            Error::Memory
        } else {
            Error::Import(fault)
        }
    }
}

/// Want of memory is told as that, and any other refusal is held as it is.
impl From<ResolveError> for Error {
    ghost use Rattle.std.specs.Prelude.{◌≡◌};
    ghost use Rattle.wesl_tree_names.specs.Errors.{error_of_refusal};

    ghost from_gives = { λ fault e. e ≡ error_of_refusal fault };

    fn from(fault: ResolveError) -> Error {
        if fault.is_memory() {
            Error::Memory
        } else {
            Error::Resolve(fault)
        }
    }
}

impl From<ValidateError> for Error {
    ghost use Rattle.std.specs.Prelude.{◌≡◌};
    ghost use Rattle.wesl_tree_names.specs.declared.errors.Error as error;

    ghost from_gives = { λ fault e. e ≡ error.Validate fault };

    fn from(fault: ValidateError) -> Error {
        Error::Validate(fault)
    }
}

impl From<Error> for Diagnostic {
    ghost use Rattle.wesl_tree_names.specs.Errors.{IsBare};

    ghost from_gives = { IsBare };

    fn from(error: Error) -> Diagnostic {
        Diagnostic::of(error)
    }
}

impl From<AllocError> for Diagnostic {
    ghost use Rattle.wesl_tree_names.specs.declared.errors.Error as error;
    ghost use Rattle.wesl_tree_names.specs.Errors.{IsBare};

    ghost from_gives = { λ _ d. IsBare error.Memory d };

    fn from(_: AllocError) -> Diagnostic {
        Diagnostic::of(Error::Memory)
    }
}

impl<T: Drop> From<AllocFailed<T>> for Diagnostic {
    ghost use Rattle.wesl_tree_names.specs.declared.errors.Error as error;
    ghost use Rattle.wesl_tree_names.specs.Errors.{IsBare};

    ghost from_gives = { λ _ d. IsBare error.Memory d };

    fn from(_: AllocFailed<T>) -> Diagnostic {
        Diagnostic::of(Error::Memory)
    }
}
