//! What is said where a package or a module is missing.
ghost use Rattle.std.specs.Prelude.{◌≡◌, IfOk, IsOkAnd, string_bytes};
ghost use Rattle.wesl_tree_base.specs.Borrowed.{texts};
ghost use Rattle.wesl_tree_base.specs.Pieces.{cut, slash};
ghost use Rattle.wesl_tree_names.specs.Path.{path_view};
ghost use Rattle.wesl_tree_names.specs.Errors.{OrMemory, IsModuleNotFound};
ghost use Rattle.wesl_resolve_base.specs.Packages.{no_dependency, no_package, no_submodule};

use std::alloc::{AllocError, Global};
use wesl_resolve_base::not_found;
use wesl_tree_names::{ModulePath, ResolveError};

/// The parts of a package's name, between its slashes.
pub(crate) fn parts_of(alloc: Global, name: &str) -> Result<Vec<&str>, AllocError>
    ensures { IfOk result (λ parts. texts parts.items ≡ cut slash name.now) }
{
    name.split('/').collect(alloc)
}

// The refusal of a path at which no module is, by a reason that had to be put together.
fn not_found_for(
    alloc: Global,
    path: &ModulePath,
    message: Result<String, AllocError>,
) -> ResolveError
    ensures { OrMemory (λ e. IsOkAnd message (λ text. IsModuleNotFound (path_view path.now) (string_bytes text) e)) result }
{
    match message {
        Ok(message) => not_found(alloc, path, message.as_str()),
        Err(_) => ResolveError::Memory,
    }
}

pub(crate) fn missing_submodule(
    alloc: Global,
    path: &ModulePath,
    name: &str,
    component: &str,
) -> ResolveError
    ensures { OrMemory (IsModuleNotFound (path_view path.now) (no_submodule name.now component.now)) result }
{
    let message = format!(in alloc; "in module `{name}`, no submodule named `{component}`");
    not_found_for(alloc, path, message)
}

pub(crate) fn missing_package(alloc: Global, path: &ModulePath, whole: &str) -> ResolveError
    ensures { OrMemory (IsModuleNotFound (path_view path.now) (no_package whole.now)) result }
{
    not_found_for(
        alloc,
        path,
        format!(in alloc; "dependency `{whole}` not found"),
    )
}

pub(crate) fn missing_dependency(
    alloc: Global,
    path: &ModulePath,
    whole: &str,
    part: &str,
) -> ResolveError
    ensures { OrMemory (IsModuleNotFound (path_view path.now) (no_dependency part.now whole.now)) result }
{
    let message = format!(in alloc; "dependency `{part}` not found in package path `{whole}`");
    not_found_for(alloc, path, message)
}
