//! The way to a module: by the parts of its package's name, and then by the components of its path.
ghost use Rattle.std.specs.Prelude.{IfOk, IfErr, map, string_bytes};
ghost use Rattle.wesl_tree_base.specs.Borrowed.{texts};
ghost use Rattle.wesl_tree_names.specs.Path.{path_view};
ghost use Rattle.wesl_tree_names.specs.Errors.{OrMemory};
ghost use Rattle.wesl_resolve_base.specs.Packages.{IsSaid};
ghost use Rattle.wesl_program_packages.specs.Held.{Gives, held_among, held_below, held_in};

use crate::held::{HeldModule, HeldPackage};
use crate::missing::{missing_dependency, missing_package, missing_submodule};
use std::alloc::Global;
use std::collections::HashMap;
use wesl_json_form::BorrowedValue;
use wesl_tree_names::{ModulePath, ResolveError};

/// The unit of the module that components lead to, each that of a module below the one before.
fn unit_below<'m, 't>(
    alloc: Global,
    path: &ModulePath,
    module: &'m HeldModule<'t>,
    components: &[String],
) -> Result<&'m BorrowedValue<'t>, ResolveError>
    ensures found { IfOk result (Gives (held_below «module».now (map string_bytes components.now))) }
    ensures missing { IfErr result (OrMemory (IsSaid (path_view path.now) (held_below «module».now (map string_bytes components.now)))) }
{
    let Some((first, others)) = components.split_first() else {
        return Ok(&module.unit);
    };
    let name = first.as_str();
    match module.modules.get(name) {
        Some(next) => unit_below(alloc, path, next, others),
        None => Err(missing_submodule(alloc, path, module.name.as_str(), name)),
    }
}

/// The unit at a path in the package that the further parts of a name lead to, each that of a dependency of the one before.
fn unit_in<'m, 't>(
    alloc: Global,
    path: &ModulePath,
    whole: &str,
    package: &'m HeldPackage<'t>,
    parts: &[&str],
) -> Result<&'m BorrowedValue<'t>, ResolveError>
    ensures found { IfOk result (Gives (held_in whole.now «package».now (texts parts.now) (path_view path.now).components)) }
    ensures missing { IfErr result (OrMemory (IsSaid (path_view path.now) (held_in whole.now «package».now (texts parts.now) (path_view path.now).components))) }
{
    let Some((first, others)) = parts.split_first() else {
        return unit_below(alloc, path, &package.root, &path.components);
    };
    match package.dependencies.get(*first) {
        Some(next) => unit_in(alloc, path, whole, next, others),
        None => Err(missing_dependency(alloc, path, whole, first)),
    }
}

/// The same in the package that all parts of the name lead to, the first of them among these packages.
pub(crate) fn unit_among<'m, 't>(
    alloc: Global,
    path: &ModulePath,
    whole: &str,
    packages: &'m HashMap<String, HeldPackage<'t>>,
    parts: &[&str],
) -> Result<&'m BorrowedValue<'t>, ResolveError>
    ensures found { IfOk result (Gives (held_among whole.now packages.now (texts parts.now) (path_view path.now).components)) }
    ensures missing { IfErr result (OrMemory (IsSaid (path_view path.now) (held_among whole.now packages.now (texts parts.now) (path_view path.now).components))) }
{
    let Some((first, others)) = parts.split_first() else {
        return Err(missing_package(alloc, path, whole));
    };
    match packages.get(*first) {
        Some(package) => unit_in(alloc, path, whole, package, others),
        None => Err(missing_package(alloc, path, whole)),
    }
}
