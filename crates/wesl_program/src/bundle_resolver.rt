//! The modules of a bundle and its packages, as a resolver: the unit at a path is read only when it is asked for.
ghost use Rattle.std.specs.Prelude.{◌≡◌, ◌⊎◌, None, Ok, IfOk, IfErr};
ghost use Rattle.wesl_tree_names.specs.declared.errors.Error as error;
ghost use Rattle.wesl_tree_names.specs.Path.{path_view};
ghost use Rattle.wesl_tree_names.specs.Errors.{IsModuleNotFound, IsRefusedWith, OrMemory};
ghost use Rattle.wesl_json_form.specs.View.{borrowed_view};
ghost use Rattle.wesl_tree_syntax.specs.Unit.{spelled};
ghost use Rattle.wesl_tree.specs.Translation.{unit_view};
ghost use Rattle.wesl_json.specs.UnitTexts.{IsSpelled, IsTreeFault};
ghost use Rattle.wesl_resolve_base.specs.Packages.{IsSaid};
ghost use Rattle.wesl_program.specs.Hands.{IsHanded, IsRefused, found_in, own_found, unit_in, virtual_module};

use crate::modules::BundleUnits;
use std::alloc::Global;
use wesl_json::unit_of_borrowed;
use wesl_json_form::BorrowedValue;
use wesl_program_packages::HeldPackages;
use wesl_resolve_base::{Resolver, refused};
use wesl_tree::{Error, ModulePath, PathOrigin, ResolveError, TranslationUnit};

/// The modules of a bundle, and its packages: a path that begins in a named package leads to a module of that, and each
/// other to one of the bundle's own. A unit is read when it is asked for. The modules are virtual: none has a source, or a
/// name by which it is shown.
#[derive(Drop)]
pub struct BundleSources<'t> {
    pub(crate) modules: BundleUnits<'t>,
    pub(crate) packages: HeldPackages<'t>,
}

impl Resolver for BundleSources<'_> {
    ghost use Rattle.wesl_tree_names.specs.Errors.{IsModuleNotFound};
    ghost use Rattle.wesl_program.specs.Hands.{IsHanded, IsRefused, found_in, virtual_module};

    ghost ready = { λ _. Unit {0} };

    ghost hands = { λ s p u. IsHanded (found_in s p) u };

    ghost refuses = { λ s p e. IsRefused p (found_in s p) e };

    ghost source = { λ _ p text. ⊥ };

    ghost lacks = { λ _ p e. IsModuleNotFound p virtual_module e };

    ghost shown = { λ _ p name. name ≡ None };

    fn resolve_source(&mut self, alloc: Global, path: &ModulePath) -> Result<String, ResolveError> {
        Err(not_found(alloc, path))
    }

    fn resolve_module(
        &mut self,
        alloc: Global,
        path: &ModulePath,
    ) -> Result<TranslationUnit, ResolveError> {
        self.unit_at(alloc, path)
    }

    fn display_name(
        &self,
        _alloc: Global,
        _path: &ModulePath,
    ) -> Result<Option<String>, ResolveError> {
        Ok(None)
    }
}

impl<'t> BundleSources<'t> {
    /// The value of the unit at a path, which is not read yet.
    pub fn value_at(
        &self,
        alloc: Global,
        path: &ModulePath,
    ) -> Result<&BorrowedValue<'t>, ResolveError>
        ensures found { IfOk result (λ v. found_in self.now (path_view path.now) ≡ Ok (borrowed_view v.now)) }
        ensures missing { IfErr result (OrMemory (IsSaid (path_view path.now) (found_in self.now (path_view path.now)))) }
    {
        match &path.origin {
            PathOrigin::Package(name) => self.packages.unit_at(alloc, path, name.as_str()),
            _ => own_value(alloc, &self.modules, path),
        }
    }

    // The unit at a path.
    fn unit_at(&self, alloc: Global, path: &ModulePath) -> Result<TranslationUnit, ResolveError>
        ensures handed { IfOk result (λ u. IsHanded (found_in self.now (path_view path.now)) (spelled (unit_view u))) }
        ensures refused { IfErr result (OrMemory (IsRefused (path_view path.now) (found_in self.now (path_view path.now)))) }
    {
        match self.value_at(alloc, path) {
            Ok(value) => read_unit(alloc, path, value),
            Err(refusal) => Err(refusal),
        }
    }
}

// That of the bundle's own module there.
fn own_value<'s, 't>(
    alloc: Global,
    modules: &'s BundleUnits<'t>,
    path: &ModulePath,
) -> Result<&'s BorrowedValue<'t>, ResolveError>
    ensures found { IfOk result (λ v. own_found (unit_in modules.now) (path_view path.now) ≡ Ok (borrowed_view v.now)) }
    ensures missing { IfErr result (OrMemory (IsSaid (path_view path.now) (own_found (unit_in modules.now) (path_view path.now)))) }
{
    match modules.unit_at(path) {
        Some(value) => Ok(value),
        None => Err(not_found(alloc, path)),
    }
}

// The unit that a value stands for.
fn tree_of(alloc: Global, value: &BorrowedValue<'_>) -> Result<TranslationUnit, Error>
    ensures read { IfOk result (λ u. IsSpelled (borrowed_view value.now) (spelled (unit_view u))) }
    ensures refused { IfErr result (λ e. (e ≡ error.Memory) ⊎ IsTreeFault (borrowed_view value.now) e) }
{
    unit_of_borrowed(alloc, value)
}

// The same of the module at a path, its fault as that of a resolver, which tells the path.
fn read_unit(
    alloc: Global,
    path: &ModulePath,
    value: &BorrowedValue<'_>,
) -> Result<TranslationUnit, ResolveError>
    ensures read { IfOk result (λ u. IsSpelled (borrowed_view value.now) (spelled (unit_view u))) }
    ensures refused { IfErr result (OrMemory (IsRefusedWith (IsTreeFault (borrowed_view value.now)))) }
{
    match tree_of(alloc, value) {
        Ok(unit) => Ok(unit),
        Err(fault) => Err(refused(alloc, fault, path, None, None)),
    }
}

fn not_found(alloc: Global, path: &ModulePath) -> ResolveError
    ensures { OrMemory (IsModuleNotFound (path_view path.now) virtual_module) result }
{
    wesl_resolve_base::not_found(alloc, path, "virtual module")
}
