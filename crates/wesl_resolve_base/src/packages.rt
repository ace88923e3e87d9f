//! Packages whose modules are held as texts.
ghost use Rattle.std.specs.Prelude.{◌≡◌, Ok, Err, Result, IfOk, IfErr, option_map, map, string_bytes};
ghost use Rattle.std.specs.List.{find};
ghost use Rattle.wesl_tree_names.specs.Path.{path_view};
ghost use Rattle.wesl_tree_base.specs.Pieces.{cut, slash};
ghost use Rattle.wesl_tree_base.specs.Borrowed.{texts};
ghost use Rattle.wesl_tree_names.specs.Errors.{OrMemory, IsModuleNotFound};
ghost use Rattle.wesl_resolve_base.specs.declared.packages.CodegenModule.{CodegenModule, out-CodegenModule};
ghost use Rattle.wesl_resolve_base.specs.declared.packages.CodegenPkg.{CodegenPkg, out-CodegenPkg};
ghost use Rattle.wesl_resolve_base.specs.Packages.{has_name, root_has_name, no_submodule, no_package, no_dependency, module_name, module_below, package_below, package_at, module_at, IsSaid, IsMissingIn};

use crate::refusals::{not_found, not_found_for};
use std::alloc::{AllocError, Global};
use wesl_tree_names::{ModulePath, PathOrigin, ResolveError};

/// A module of a package, with the modules below it.
#[derive(Debug, PartialEq, Eq)]
pub struct CodegenModule {
    /// The name by which paths lead to it.
    pub name: String,
    /// What it says.
    pub source: String,
    /// The modules below it. Of those with one name the first counts.
    pub submodules: Vec<CodegenModule>,
}

// By hand, so that it is proved once: a derived one is proved in each crate that lets go of a value.
impl Drop for CodegenModule {
    fn drop(self) {
        let CodegenModule {
            name: _,
            source: _,
            submodules: _,
        } = self;
    }
}

/// A package: its root module, and the packages that it depends on.
#[derive(Debug, PartialEq, Eq)]
pub struct CodegenPkg {
    /// The name of the crate that ships the package. No path leads by it.
    pub crate_name: String,
    /// The root module, by whose name paths lead to the package.
    pub root: CodegenModule,
    /// The packages that it depends on. Of those with one name the first counts.
    pub dependencies: Vec<CodegenPkg>,
}

impl Drop for CodegenPkg {
    fn drop(self) {
        let CodegenPkg {
            crate_name: _,
            root: _,
            dependencies: _,
        } = self;
    }
}

/// The first submodule of a name.
fn submodule<'m>(module: &'m CodegenModule, name: &str) -> Option<&'m CodegenModule>
    ensures { option_map (λ m. m.now) result ≡ find (has_name name.now) (out-CodegenModule «module».now).submodules.items }
{
    module
        .submodules
        .iter()
        .find(|submodule| submodule.name.as_str() == name)
}

/// The first package of a name.
fn package_named<'p>(packages: &'p [CodegenPkg], name: &str) -> Option<&'p CodegenPkg>
    ensures { option_map (λ k. k.now) result ≡ find (root_has_name name.now) packages.now }
{
    packages
        .iter()
        .find(|package| package.root.name.as_str() == name)
}

fn missing_submodule(
    alloc: Global,
    path: &ModulePath,
    module: &CodegenModule,
    component: &str,
) -> ResolveError
    ensures { OrMemory (IsModuleNotFound (path_view path.now) (no_submodule (module_name «module».now) component.now)) result }
{
    let name = module.name.as_str();
    let message = format!(in alloc; "in module `{name}`, no submodule named `{component}`");
    not_found_for(alloc, path, message)
}

fn missing_package(alloc: Global, path: &ModulePath, whole: &str) -> ResolveError
    ensures { OrMemory (IsModuleNotFound (path_view path.now) (no_package whole.now)) result }
{
    not_found_for(
        alloc,
        path,
        format!(in alloc; "dependency `{whole}` not found"),
    )
}

fn missing_dependency(alloc: Global, path: &ModulePath, whole: &str, part: &str) -> ResolveError
    ensures { OrMemory (IsModuleNotFound (path_view path.now) (no_dependency part.now whole.now)) result }
{
    let message = format!(in alloc; "dependency `{part}` not found in package path `{whole}`");
    not_found_for(alloc, path, message)
}

/// The module that components lead to, each among the submodules of the one before.
fn module_below<'m>(
    alloc: Global,
    path: &ModulePath,
    root: &'m CodegenModule,
    components: &[String],
) -> Result<&'m CodegenModule, ResolveError>
    ensures found { IfOk result (λ m. module_below root.now (map string_bytes components.now) ≡ Ok m.now) }
    ensures missing { IfErr result (OrMemory (IsSaid (path_view path.now) (module_below root.now (map string_bytes components.now)))) }
{
    let mut module = root;
    for component in components {
        let name = component.as_str();
        match submodule(module, name) {
            Some(next) => module = next,
            None => return Err(missing_submodule(alloc, path, module, name)),
        }
    }
    Ok(module)
}

/// The package that the further parts of a name lead to, each among the dependencies of the one before.
fn package_below<'p>(
    alloc: Global,
    path: &ModulePath,
    whole: &str,
    first: &'p CodegenPkg,
    parts: &[&str],
) -> Result<&'p CodegenPkg, ResolveError>
    ensures found { IfOk result (λ k. package_below whole.now first.now (texts parts.now) ≡ Ok k.now) }
    ensures missing { IfErr result (OrMemory (IsSaid (path_view path.now) (package_below whole.now first.now (texts parts.now)))) }
{
    let mut package = first;
    for part in parts {
        match package_named(&package.dependencies, part) {
            Some(next) => package = next,
            None => return Err(missing_dependency(alloc, path, whole, part)),
        }
    }
    Ok(package)
}

fn parts_of(alloc: Global, name: &str) -> Result<Vec<&str>, AllocError>
    ensures { IfOk result (λ parts. texts parts.items ≡ cut slash name.now) }
{
    name.split('/').collect(alloc)
}

/// The package that the parts of a name lead to, the first of them among these packages.
fn package_among<'p>(
    alloc: Global,
    packages: &'p [CodegenPkg],
    path: &ModulePath,
    whole: &str,
    parts: &[&str],
) -> Result<&'p CodegenPkg, ResolveError>
    ensures found { IfOk result (λ k. package_at packages.now whole.now (texts parts.now) ≡ Ok k.now) }
    ensures missing { IfErr result (OrMemory (IsSaid (path_view path.now) (package_at packages.now whole.now (texts parts.now)))) }
{
    let Some((first, others)) = parts.split_first() else {
        return Err(missing_package(alloc, path, whole));
    };
    match package_named(packages, first) {
        Some(package) => package_below(alloc, path, whole, package, others),
        None => Err(missing_package(alloc, path, whole)),
    }
}

/// The package that a name leads to.
fn package_at<'p>(
    alloc: Global,
    packages: &'p [CodegenPkg],
    path: &ModulePath,
    whole: &str,
) -> Result<&'p CodegenPkg, ResolveError>
    ensures found { IfOk result (λ k. package_at packages.now whole.now (cut slash whole.now) ≡ Ok k.now) }
    ensures missing { IfErr result (OrMemory (IsSaid (path_view path.now) (package_at packages.now whole.now (cut slash whole.now)))) }
{
    match parts_of(alloc, whole) {
        Ok(parts) => package_among(alloc, packages, path, whole, &parts),
        Err(_) => Err(ResolveError::Memory),
    }
}

/// The module at a path.
pub fn module_at<'p>(
    alloc: Global,
    packages: &'p [CodegenPkg],
    path: &ModulePath,
) -> Result<&'p CodegenModule, ResolveError>
    ensures found { IfOk result (λ m. module_at packages.now (path_view path.now) ≡ Ok m.now) }
    ensures missing { IfErr result (OrMemory (IsMissingIn packages.now (path_view path.now))) }
{
    let PathOrigin::Package(name) = &path.origin else {
        let message = "resolver can only resolve package imports";
        return Err(not_found(alloc, path, message));
    };
    match package_at(alloc, packages, path, name.as_str()) {
        Ok(package) => module_below(alloc, path, &package.root, &path.components),
        Err(refusal) => Err(refusal),
    }
}
