//! Why a link was refused, with the paths and names of its numbers.
ghost use Rattle.std.specs.Prelude.{◌≡◌, IfOk, string_bytes};
ghost use Rattle.wesl_tree_names.specs.Path.{Text, Path, path_view};
ghost use Rattle.wesl_link_tables.specs.Numbering.{NameAt, PathAt};
ghost use Rattle.wesl_link_tables.specs.NumbersView.{numbering};
ghost use Rattle.wesl_link_engine.specs.Refusal.{HasNumbers, TellsLinkError, IsModuleAt, TellsAt, IsToldBy};
ghost use Rattle.wesl_link_engine.specs.Refusal as refusal;

use std::alloc::{AllocError, Global};
use wesl_link_reach::error::LinkError;
use wesl_link_symbols::ids::{NameId, PathId};
use wesl_link_tables::numbers::Numbers;
use wesl_tree_names::{Diagnostic, Error, ImportError, ModulePath, ResolveError};

/// The path of a number.
pub fn path_of(alloc: Global, numbers: &Numbers, id: PathId) -> Result<ModulePath, AllocError>
    requires { (q : Path) × PathAt (numbering numbers.now) id q }
    ensures { IfOk result (λ p. PathAt (numbering numbers.now) id (path_view p)) }
{
    numbers.paths.get(alloc, id)
}

/// The name of a number.
fn name_of(alloc: Global, numbers: &Numbers, id: NameId) -> Result<String, AllocError>
    requires { (x : Text) × NameAt (numbering numbers.now) id x }
    ensures { IfOk result (λ x. NameAt (numbering numbers.now) id (string_bytes x)) }
{
    let Some(name) = numbers.names.name(id) else {
        unreachable!()
    };
    String::from_str(alloc, name)
}

/// The error that tells why a link was refused.
fn told(
    alloc: Global,
    numbers: &Numbers,
    fault: LinkError<ResolveError>,
) -> Result<Error, AllocError>
    requires { HasNumbers (numbering numbers.now) fault }
    ensures { IfOk result (TellsLinkError (numbering numbers.now) fault) }
{
    match fault {
        LinkError::DuplicateSymbol(_, name) => {
            let name = name_of(alloc, numbers, name)?;
            Ok(Error::Import(ImportError::DuplicateSymbol(name)))
        }
        LinkError::Refused(error) => Ok(Error::of_resolve(error)),
        LinkError::MissingDecl(path, name) => {
            let path = path_of(alloc, numbers, path)?;
            let name = name_of(alloc, numbers, name)?;
            Ok(Error::Import(ImportError::MissingDecl(path, name)))
        }
        LinkError::Private(name, path) => {
            let name = name_of(alloc, numbers, name)?;
            let path = path_of(alloc, numbers, path)?;
            Ok(Error::Import(ImportError::Private(name, path)))
        }
        LinkError::AmbiguousSymbol(name) => {
            let name = name_of(alloc, numbers, name)?;
            Ok(Error::Import(ImportError::AmbiguousSymbol(name)))
        }
        LinkError::TooManyFlags(path) => {
            let path = path_of(alloc, numbers, path)?;
            Ok(Error::Import(ImportError::TooManyFlags(path)))
        }
        LinkError::ModuleLimit(limit) => Ok(Error::ModuleLimit(limit)),
        LinkError::Memory => Ok(Error::Memory),
    }
}

/// The module that holds a fault, if one does.
fn holder_of(fault: &LinkError<ResolveError>) -> Option<PathId>
    ensures { result ≡ refusal.holder_of fault.now }
{
    match fault {
        LinkError::DuplicateSymbol(path, _)
        | LinkError::MissingDecl(path, _)
        | LinkError::Private(_, path) => Some(*path),
        _ => None,
    }
}

/// The path of a number, if it has one.
fn module_at(
    alloc: Global,
    numbers: &Numbers,
    id: Option<PathId>,
) -> Result<Option<ModulePath>, AllocError>
    ensures { IfOk result (IsModuleAt (numbering numbers.now) id) }
{
    match id {
        Some(id) => numbers.paths.path(alloc, id),
        None => Ok(None),
    }
}

/// The diagnostic of an error in the module of a number, unless there is no memory to tell it. It tells nothing else of the
/// place.
fn in_module(alloc: Global, numbers: &Numbers, error: Error, id: Option<PathId>) -> Diagnostic
    ensures { TellsAt (numbering numbers.now) id error result }
{
    match module_at(alloc, numbers, id) {
        Ok(module) => Diagnostic {
            error,
            declaration: None,
            module,
            display: None,
            span: None,
            source: None,
        },
        Err(_) => Diagnostic::of(Error::Memory),
    }
}

/// The diagnostic of a refused link: it tells why and in which module, unless there is no memory to tell it.
pub fn diagnostic_of(alloc: Global, numbers: &Numbers, fault: LinkError<ResolveError>) -> Diagnostic
    requires { HasNumbers (numbering numbers.now) fault }
    ensures { IsToldBy (numbering numbers.now) fault result }
{
    let holder = holder_of(&fault);
    match told(alloc, numbers, fault) {
        Ok(error) => in_module(alloc, numbers, error, holder),
        Err(_) => Diagnostic::of(Error::Memory),
    }
}
