//! Equality of packages and of their modules.
ghost use Rattle.std.specs.Prelude.{◌≡◌, ◌↔◌, IsTrue};
ghost use Rattle.wesl_resolve.specs.PackageViews.{module_view, package_view};

use wesl_resolve_base::{CodegenModule, CodegenPkg};

/// Whether two modules of packages are equal: their names, their sources and the modules below them are.
#[tactic(auto, using(crate::proofs::OfPackages::module_decided))]
pub fn equal_modules(module: &CodegenModule, other: &CodegenModule) -> bool
    ensures { IsTrue result ↔ (module_view «module».now ≡ module_view other.now) }
{
    module == other
}

/// Whether two packages are equal: the names of their crates, their roots and the packages that they depend on are.
#[tactic(auto, using(crate::proofs::OfPackages::package_decided))]
pub fn equal_packages(package: &CodegenPkg, other: &CodegenPkg) -> bool
    ensures { IsTrue result ↔ (package_view «package».now ≡ package_view other.now) }
{
    package == other
}
