//! Packages whose modules are found by their names.
ghost use Rattle.std.specs.Prelude.{IfOk, IfErr};
ghost use Rattle.wesl_tree_names.specs.Path.{path_view};
ghost use Rattle.wesl_tree_names.specs.Errors.{OrMemory};
ghost use Rattle.wesl_resolve_base.specs.Packages.{IsSaid};
ghost use Rattle.wesl_program_bundle.specs.PackageViews.{packages_view};

use crate::finding::unit_among;
use crate::holding::held_packages;
use crate::missing::parts_of;
use std::alloc::{AllocError, Global};
use std::collections::HashMap;
use wesl_json_form::BorrowedValue;
use wesl_program_bundle::Package;
use wesl_tree_names::{ModulePath, ResolveError};

/// A module of a package, with the modules below it by their names. Its unit is not read yet.
#[derive(Drop)]
pub struct HeldModule<'t> {
    pub(crate) name: String,
    pub(crate) unit: BorrowedValue<'t>,
    pub(crate) modules: HashMap<String, HeldModule<'t>>,
}

/// A package: its root module, and the packages that it depends on by their names.
#[derive(Drop)]
pub struct HeldPackage<'t> {
    pub(crate) root: HeldModule<'t>,
    pub(crate) dependencies: HashMap<String, HeldPackage<'t>>,
}

/// The packages of a bundle by their names. Of packages with one name, and of modules, the first counts.
#[derive(Drop)]
pub struct HeldPackages<'t> {
    packages: HashMap<String, HeldPackage<'t>>,
}

impl<'t> HeldPackages<'t> {
    ghost use Rattle.wesl_program_packages.specs.Held.{Gives, HoldsListed, held_unit};

    /// Holds the packages of a bundle, with the values that it has of their units. Refused for want of memory alone.
    pub fn new(alloc: Global, packages: Vec<Package<'t>>) -> Result<HeldPackages<'t>, AllocError>
        ensures held { IfOk result (HoldsListed (packages_view packages.entry.items)) }
    {
        let named = held_packages(alloc, packages)?;
        Ok(HeldPackages { packages: named })
    }

    /// The value of the unit at a path that begins in the package of this name: each part of the name after a slash is that
    /// of a dependency, and each component of the path that of a module below. Refused where one of them is missing, and for
    /// want of memory.
    pub fn unit_at(
        &self,
        alloc: Global,
        path: &ModulePath,
        name: &str,
    ) -> Result<&BorrowedValue<'t>, ResolveError>
        ensures found { IfOk result (Gives (held_unit self.now name.now (path_view path.now).components)) }
        ensures missing { IfErr result (OrMemory (IsSaid (path_view path.now) (held_unit self.now name.now (path_view path.now).components))) }
    {
        match parts_of(alloc, name) {
            Ok(parts) => unit_among(alloc, path, name, &self.packages, &parts),
            Err(_) => Err(ResolveError::Memory),
        }
    }
}
