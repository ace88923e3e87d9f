//! The packages of a bundle.
ghost use Rattle.std.specs.Prelude.{◌≡◌, Some, IfOk, IfErr, codes};
ghost use Rattle.serde_json.specs.Find.{get};
ghost use Rattle.wesl_json_form.specs.View.{borrowed_view};
ghost use Rattle.wesl_program_bundle.specs.Broken.{Locates, LocatesMember};
ghost use Rattle.wesl_program_bundle.specs.Forms.{a_list_of, a_package, a_package_module, optional};
ghost use Rattle.wesl_program_bundle.specs.PackageViews.{package_module_view, package_modules_view, package_view, packages_view};
ghost use Rattle.wesl_program_bundle.specs.Packages.{module_with, modules_at, no_packages, package_in, package_module_in, packages_in};
ghost use Rattle.wesl_program_bundle.specs.Parts.{LocatesModuleMember};
ghost use Rattle.wesl_program_bundle.specs.Reading.{or_default};

use crate::joined::{both, inside, only, with_item};
use crate::members::{BundleError, name_member, under, unit_member, wrong};
use std::alloc::Global;
use wesl_json_form::BorrowedValue;

/// A module of a package, with the modules below it. No unit is read yet.
#[derive(Drop)]
pub struct PackageModule<'t> {
    /// The name by which paths lead to it.
    pub name: String,
    /// A copy of the value that its unit is read from.
    pub unit: BorrowedValue<'t>,
    /// The modules below it, in order.
    pub modules: Vec<PackageModule<'t>>,
}

/// A package of a bundle.
#[derive(Drop)]
pub struct Package<'t> {
    /// The root module. Its name is that of the package too.
    pub root: PackageModule<'t>,
    /// The packages that it depends on, in order.
    pub dependencies: Vec<Package<'t>>,
}

// The packages at the key, none where it is not there.
#[cycle(packages)]
pub(crate) fn packages_member<'t>(
    alloc: Global,
    value: &BorrowedValue<'t>,
    key: &str,
) -> Result<Vec<Package<'t>>, BundleError>
    ensures ok { IfOk result (λ ps. or_default no_packages packages_in (get key.now (borrowed_view value.now)) ≡ Some (packages_view ps.items)) }
    ensures place { IfErr result (LocatesMember (optional key.now (a_list_of a_package)) (borrowed_view value.now)) }
{
    let Some(list) = value.get(key) else {
        return Ok(Vec::new(alloc));
    };
    let Some(items) = list.as_array() else {
        return Err(under(alloc, wrong(alloc), key));
    };
    let mut packages = Ok(Vec::new(alloc));
    for (index, item) in items.iter().enumerate() {
        let package = package_of(alloc, item);
        packages = with_item(alloc, packages, index, package);
    }
    inside(alloc, key, packages)
}

#[cycle(packages)]
fn package_of<'t>(alloc: Global, value: &BorrowedValue<'t>) -> Result<Package<'t>, BundleError>
    ensures ok { IfOk result (λ p. package_in (borrowed_view value.now) ≡ Some (package_view p)) }
    ensures place { IfErr result (Locates a_package (borrowed_view value.now)) }
{
    let root = module_members(alloc, value);
    let dependencies = packages_member(alloc, value, "dependencies");
    let known = ["name", "unit", "modules", "dependencies"];
    match only(alloc, value, &known, both(root, dependencies)) {
        Ok((root, dependencies)) => Ok(Package { root, dependencies }),
        Err(error) => Err(error),
    }
}

// The modules at the key, none where it is not there.
#[cycle(modules)]
fn modules_member<'t>(
    alloc: Global,
    value: &BorrowedValue<'t>,
    key: &str,
) -> Result<Vec<PackageModule<'t>>, BundleError>
    ensures ok { IfOk result (λ ms. modules_at key.now (borrowed_view value.now) ≡ Some (package_modules_view ms.items)) }
    ensures place { IfErr result (LocatesMember (optional key.now (a_list_of a_package_module)) (borrowed_view value.now)) }
{
    let Some(list) = value.get(key) else {
        return Ok(Vec::new(alloc));
    };
    let Some(items) = list.as_array() else {
        return Err(under(alloc, wrong(alloc), key));
    };
    let mut modules = Ok(Vec::new(alloc));
    for (index, item) in items.iter().enumerate() {
        let module = module_of(alloc, item);
        modules = with_item(alloc, modules, index, module);
    }
    inside(alloc, key, modules)
}

#[cycle(modules)]
fn module_of<'t>(alloc: Global, value: &BorrowedValue<'t>) -> Result<PackageModule<'t>, BundleError>
    ensures ok { IfOk result (λ m. package_module_in (borrowed_view value.now) ≡ Some (package_module_view m)) }
    ensures place { IfErr result (Locates a_package_module (borrowed_view value.now)) }
{
    let members = module_members(alloc, value);
    only(alloc, value, &["name", "unit", "modules"], members)
}

// What a module has: a package has it too, for its root.
#[cycle(modules)]
fn module_members<'t>(
    alloc: Global,
    value: &BorrowedValue<'t>,
) -> Result<PackageModule<'t>, BundleError>
    ensures ok { IfOk result (λ m. module_with (borrowed_view value.now) (modules_at (codes "modules") (borrowed_view value.now)) ≡ Some (package_module_view m)) }
    ensures place { IfErr result (LocatesModuleMember (borrowed_view value.now)) }
{
    let name = name_member(alloc, value, "name");
    let unit = unit_member(alloc, value, "unit");
    let modules = modules_member(alloc, value, "modules");
    match both(name, both(unit, modules)) {
        Ok((name, content)) => {
            let (unit, modules) = content;
            Ok(PackageModule {
                name,
                unit,
                modules,
            })
        }
        Err(error) => Err(error),
    }
}
