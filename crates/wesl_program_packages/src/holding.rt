//! From the packages that a bundle lists to packages by their names.
ghost use Rattle.std.specs.Prelude.{IfOk};
ghost use Rattle.wesl_program_bundle.specs.PackageViews.{package_module_view, package_modules_view, package_view, packages_view};
ghost use Rattle.wesl_program_packages.specs.Held.{HoldsModule, HoldsModules, HoldsPackage, HoldsPackages};

use crate::first::add_first;
use crate::held::{HeldModule, HeldPackage};
use std::alloc::{AllocError, Global};
use std::collections::HashMap;
use wesl_program_bundle::{Package, PackageModule};

#[cycle(modules)]
fn held_module<'t>(alloc: Global, module: PackageModule<'t>) -> Result<HeldModule<'t>, AllocError>
    ensures held { IfOk result (HoldsModule (package_module_view «module».entry)) }
{
    let PackageModule {
        name,
        unit,
        modules,
    } = module;
    let modules = held_modules(alloc, modules)?;
    Ok(HeldModule {
        name,
        unit,
        modules,
    })
}

#[cycle(modules)]
fn held_modules<'t>(
    alloc: Global,
    modules: Vec<PackageModule<'t>>,
) -> Result<HashMap<String, HeldModule<'t>>, AllocError>
    ensures held { IfOk result (HoldsModules (package_modules_view modules.entry.items)) }
{
    let mut named = HashMap::new(alloc);
    for module in modules {
        let held = held_module(alloc, module)?;
        let name = String::from_str(alloc, held.name.as_str())?;
        add_first(&mut named, name, held)?;
    }
    Ok(named)
}

#[cycle(packages)]
fn held_package<'t>(alloc: Global, package: Package<'t>) -> Result<HeldPackage<'t>, AllocError>
    ensures held { IfOk result (HoldsPackage (package_view «package».entry)) }
{
    let Package { root, dependencies } = package;
    let root = held_module(alloc, root)?;
    let dependencies = held_packages(alloc, dependencies)?;
    Ok(HeldPackage { root, dependencies })
}

/// The packages that a bundle lists, each by its name.
#[cycle(packages)]
pub(crate) fn held_packages<'t>(
    alloc: Global,
    packages: Vec<Package<'t>>,
) -> Result<HashMap<String, HeldPackage<'t>>, AllocError>
    ensures held { IfOk result (HoldsPackages (packages_view packages.entry.items)) }
{
    let mut named = HashMap::new(alloc);
    for package in packages {
        let held = held_package(alloc, package)?;
        let name = String::from_str(alloc, held.root.name.as_str())?;
        add_first(&mut named, name, held)?;
    }
    Ok(named)
}
