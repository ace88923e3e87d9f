//! Refusals that resolvers make.
ghost use Rattle.std.specs.Prelude.{◌≡◌, false, IfOk, IfErr, IfSome, IsOkAnd, option_map, string_bytes};
ghost use Rattle.std.specs.Result.{result_ok};
ghost use Rattle.wesl_tree_names.specs.Path.{path_view, is_relative};
ghost use Rattle.wesl_tree_names.specs.Errors.{is_memory, OrMemory, IsModuleNotFound, IsRefusedFor};
ghost use Rattle.wesl_resolve_base.specs.Refusals.{HoldsDiagnostic, TellsModule, IsShownRefusal};
ghost use Rattle.wesl_tree_names.specs.declared.errors.ResolveError as resolve_error;

use crate::resolver::Resolver;
use std::alloc::{AllocError, Global};
use wesl_tree_names::{Diagnostic, Error, ModulePath, ResolveError};

/// What was made, or nothing where that was refused.
///
/// The error is let go as a diagnostic, which takes one call: an error's own drop is written out where it stands.
pub fn made<T>(answer: Result<T, Error>) -> Option<T>
    ensures { result ≡ result_ok answer }
{
    match answer {
        Ok(value) => Some(value),
        Err(fault) => {
            let _fault = Diagnostic::of(fault);
            None
        }
    }
}

/// A copy of the text of a module, refused for want of memory alone.
pub fn copied(alloc: Global, text: &str) -> Result<String, ResolveError>
    ensures same { IfOk result (λ copy. string_bytes copy ≡ text.now) }
    ensures refused { IfErr result (λ e. e ≡ resolve_error.Memory) }
{
    match String::from_str(alloc, text) {
        Ok(copy) => Ok(copy),
        Err(_) => Err(ResolveError::Memory),
    }
}

/// The refusal of a path at which no module is, with the reason.
pub fn not_found(alloc: Global, path: &ModulePath, message: &str) -> ResolveError
    ensures { OrMemory (IsModuleNotFound (path_view path.now) message.now) result }
{
    let Ok(message) = String::from_str(alloc, message) else {
        return ResolveError::Memory;
    };
    match made(path.try_clone(alloc)) {
        Some(path) => ResolveError::ModuleNotFound(path, message),
        None => ResolveError::Memory,
    }
}

/// The same refusal, by a reason that had to be put together.
pub(crate) fn not_found_for(
    alloc: Global,
    path: &ModulePath,
    message: Result<String, AllocError>,
) -> ResolveError
    ensures { OrMemory (λ e. IsOkAnd message (λ text. IsModuleNotFound (path_view path.now) (string_bytes text) e)) result }
{
    match message {
        Ok(message) => not_found(alloc, path, message.as_str()),
        Err(_) => ResolveError::Memory,
    }
}

/// The path that the refusal of a module tells: none where memory was wanting before, or is for the copy.
fn path_told(alloc: Global, fault: &Error, path: &ModulePath) -> Option<ModulePath>
    ensures same { IfSome result (λ m. path_view m ≡ path_view path.now) }
    ensures not_memory { IfSome result (λ _. is_memory fault.now ≡ false) }
{
    if fault.is_memory() {
        return None;
    }
    made(path.try_clone(alloc))
}

/// The refusal that a diagnostic tells.
fn refusal_of(alloc: Global, diagnostic: Diagnostic) -> ResolveError
    ensures { OrMemory (HoldsDiagnostic diagnostic) result }
{
    match Box::new(alloc, diagnostic) {
        Ok(diagnostic) => ResolveError::Error(diagnostic),
        Err(_) => ResolveError::Memory,
    }
}

/// The refusal of a module that is there, with the path, the name that it is shown by and the source that is told: no
/// declaration and no place. Want of memory stays what it is, also where somebody wrapped it.
pub fn refused(
    alloc: Global,
    fault: Error,
    path: &ModulePath,
    display: Option<String>,
    source: Option<String>,
) -> ResolveError
    ensures error { OrMemory (IsRefusedFor (λ e. e ≡ fault)) result }
    ensures told { OrMemory (TellsModule (path_view path.now) (option_map string_bytes display) (option_map string_bytes source)) result }
{
    let module = path_told(alloc, &fault, path);
    let is_told = module.is_some();
    let diagnostic = Diagnostic {
        error: fault,
        declaration: None,
        module,
        display,
        span: None,
        source,
    };
    if is_told {
        refusal_of(alloc, diagnostic)
    } else {
        ResolveError::Memory
    }
}

/// The refusal of the unit at a path, with the name by which the resolver shows it, and without a source. Want of memory
/// stays what it is, also where somebody wrapped it.
pub fn refused_by<R: Resolver>(
    resolver: &R,
    alloc: Global,
    fault: Error,
    path: &ModulePath,
) -> ResolveError
    requires asked { R.ready resolver.now }
    requires rooted { is_relative (path_view path.now) ≡ false }
    ensures { OrMemory (IsShownRefusal (λ e. e ≡ fault) (path_view path.now) (R.shown resolver.now (path_view path.now))) result }
{
    match resolver.display_name(alloc, path) {
        Ok(display) => refused(alloc, fault, path, display, None),
        Err(refusal) => {
            // An error is let go as a diagnostic, by one call.
            let _fault = Diagnostic::of(fault);
            refusal
        }
    }
}
