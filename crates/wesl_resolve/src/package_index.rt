//! Where the modules of packages stand, so that a path leads to its module by one look-up.
ghost use Rattle.std.specs.Prelude.{◌≡◌, ◌++◌, ◌∷◌, [], true, false, List, Some, IfOk, IfErr, IfSome, OnOk, OnErr, option_map};
ghost use Rattle.std.specs.List.{find, list_any, slice_get};
ghost use Rattle.wesl_tree_names.specs.Path.{path_view};
ghost use Rattle.wesl_tree_names.specs.Errors.{OrMemory};
ghost use Rattle.wesl_tree_names.specs.declared.errors.Error as error;
ghost use Rattle.wesl_resolve_base.specs.Packages.{IsMissingIn, IsSourceIn, root_has_name, source_of};
ghost use Rattle.wesl_resolve_base.specs.declared.packages.CodegenModule.{CodegenModule, out-CodegenModule};
ghost use Rattle.wesl_resolve_base.specs.declared.packages.CodegenPkg.{CodegenPkg};
ghost use Rattle.wesl_resolve.specs.Places.{AreNoted, HaveNames, IsFirstBelow, IsFirstPackage, NoteBelow, NoteFirst, NoteFirstIf, StandsAt, module_along, module_standing, package_name};

use indexmap::IndexMap;
use std::alloc::Global;
use std::collections::HashSet;
use wesl_resolve_base::{CodegenModule, CodegenPkg, module_at};
use wesl_tree_base::has_slash;
use wesl_tree_names::{Error, ModulePath, PathOrigin, ResolveError};

/// What is noted of packages. A path that is not noted is looked for.
#[derive(Drop)]
pub(crate) struct PackageIndex {
    alloc: Global,
    /// the names of the packages
    pub(crate) names: HashSet<String>,
    /// of paths where their modules stand: the place of the package, then of each module among those below the one before
    pub(crate) places: IndexMap<ModulePath, Vec<usize>>,
}

/// The module with this number among those below another.
fn submodule_numbered(module: &CodegenModule, number: usize) -> Option<&CodegenModule>
    ensures { option_map (λ m. m.now) result ≡ slice_get (out-CodegenModule «module».now).submodules.items number }
{
    module.submodules.get(number)
}

/// The package with this number.
fn package_numbered(packages: &Vec<CodegenPkg>, number: usize) -> Option<&CodegenPkg>
    ensures { option_map (λ k. k.now) result ≡ slice_get packages.now.items number }
{
    packages.get(number)
}

/// The module to which places lead, each among the modules below the one before.
fn module_along<'m>(root: &'m CodegenModule, place: &[usize]) -> Option<&'m CodegenModule>
    ensures { option_map (λ m. m.now) result ≡ module_along root.now place.now }
{
    let mut module = root;
    for number in place {
        match submodule_numbered(module, *number) {
            Some(next) => module = next,
            None => return None,
        }
    }
    Some(module)
}

/// The module that stands there.
fn module_standing<'p>(packages: &'p Vec<CodegenPkg>, place: &[usize]) -> Option<&'p CodegenModule>
    ensures { option_map (λ m. m.now) result ≡ module_standing packages.now.items place.now }
{
    let Some((first, others)) = place.split_first() else {
        return None;
    };
    match package_numbered(packages, *first) {
        Some(package) => module_along(&package.root, others),
        None => None,
    }
}

/// Notes where a module stands that is at a path, and where those below it do.
#[cycle(notes)]
fn note(
    alloc: Global,
    places: &mut IndexMap<ModulePath, Vec<usize>>,
    path: ModulePath,
    place: Vec<usize>,
    module: &CodegenModule,
) -> Result<(), Error>
    ensures { (ks : List CodegenPkg) → StandsAt ks (path_view path) place.items «module».now → AreNoted ks places.old → AreNoted ks places.new }
{
    note_below(alloc, places, &path, &place, &module.submodules)?;
    places.insert(path, place)?;
    Ok(())
}

/// Notes where a module stands that is the first of its name below the module at a path.
#[cycle(notes)]
fn note_first(
    alloc: Global,
    places: &mut IndexMap<ModulePath, Vec<usize>>,
    path: &ModulePath,
    place: &Vec<usize>,
    number: usize,
    module: &CodegenModule,
) -> Result<(), Error>
    ensures { NoteBelow (path_view path.now) place.now.items (λ m. IsFirstBelow m number «module».now) places.old places.new }
{
    let mut path_there = path.try_clone(alloc)?;
    path_there.push(module.name.as_str())?;
    let mut place_there = Vec::from_slice(alloc, place)?;
    place_there.push(number)?;
    note(alloc, places, path_there, place_there, module)
}

/// The same, if it is the first.
#[cycle(notes)]
fn note_if(
    alloc: Global,
    places: &mut IndexMap<ModulePath, Vec<usize>>,
    path: &ModulePath,
    place: &Vec<usize>,
    number: usize,
    module: &CodegenModule,
    is_first: bool,
) -> Result<(), Error>
    ensures { NoteBelow (path_view path.now) place.now.items (λ m. is_first ≡ true → IsFirstBelow m number «module».now) places.old places.new }
{
    if !is_first {
        return Ok(());
    }
    note_first(alloc, places, path, place, number, module)
}

/// Notes where modules stand below the module at a path: of those with one name the first.
#[cycle(notes)]
fn note_below(
    alloc: Global,
    places: &mut IndexMap<ModulePath, Vec<usize>>,
    path: &ModulePath,
    place: &Vec<usize>,
    modules: &Vec<CodegenModule>,
) -> Result<(), Error>
    ensures { NoteBelow (path_view path.now) place.now.items (λ m. (out-CodegenModule m).submodules.items ≡ modules.now.items) places.old places.new }
{
    let mut seen: HashSet<&str> = HashSet::new(alloc);
    let mut number = 0;
    for submodule in modules {
        let is_first = seen.insert(submodule.name.as_str())?;
        note_if(alloc, places, path, place, number, submodule, is_first)?;
        number += 1;
    }
    Ok(())
}

/// Notes where the modules of a package stand that has this number and no slash in its name, and is the first of it.
fn note_package(
    alloc: Global,
    places: &mut IndexMap<ModulePath, Vec<usize>>,
    number: usize,
    package: &CodegenPkg,
) -> Result<(), Error>
    ensures { (ks : List CodegenPkg) → IsFirstPackage ks number «package».now → AreNoted ks places.old → AreNoted ks places.new }
{
    let name = String::from_str(alloc, package.root.name.as_str())?;
    let path = ModulePath::new(PathOrigin::Package(name), Vec::new(alloc));
    let mut place = Vec::new(alloc);
    place.push(number)?;
    note(alloc, places, path, place, &package.root)
}

impl PackageIndex {
    /// Nothing is noted. It takes no memory.
    pub(crate) fn new(alloc: Global) -> PackageIndex
        ensures named { HaveNames [] result.names }
        ensures noted { AreNoted [] result.places }
    {
        PackageIndex {
            alloc,
            names: HashSet::new(alloc),
            places: IndexMap::new(alloc),
        }
    }

    /// Notes the name of one more package, and answers whether none before has it. Refused for want of memory alone.
    fn add_name(&mut self, package: &CodegenPkg) -> Result<bool, Error>
        ensures first { IfOk result (λ is_first. (ks : List CodegenPkg) → HaveNames ks self.old.names → is_first ≡ true → list_any (root_has_name (package_name «package».now)) ks ≡ false) }
        ensures named { OnOk result ((ks : List CodegenPkg) → HaveNames ks self.old.names → HaveNames (ks ++ «package».now ∷ []) self.new.names) }
        ensures kept { (ks : List CodegenPkg) → HaveNames ks self.old.names → HaveNames ks self.new.names }
        ensures places { self.new.places ≡ self.old.places }
        ensures refused { IfErr result (λ e. e ≡ error.Memory) }
    {
        let name = String::from_str(self.alloc, package.root.name.as_str())?;
        Ok(self.names.insert(name)?)
    }

    /// Notes where modules of the package with this number stand. Where memory is wanting, paths stay that are looked for.
    fn add(&mut self, packages: &Vec<CodegenPkg>, number: usize)
        ensures names { self.new.names ≡ self.old.names }
        ensures noted { NoteFirst packages.now.items number self.old.places self.new.places }
    {
        let Some(package) = package_numbered(packages, number) else {
            return;
        };
        if !has_slash(package.root.name.as_str()) {
            let _noted = note_package(self.alloc, &mut self.places, number, package).ok();
        }
    }

    /// The same, if it is the first of its name.
    fn add_if(&mut self, packages: &Vec<CodegenPkg>, number: usize, is_first: bool)
        ensures names { self.new.names ≡ self.old.names }
        ensures noted { NoteFirstIf is_first packages.now.items number self.old.places self.new.places }
    {
        if is_first {
            self.add(packages, number);
        }
    }

    /// Adds a package after the others, and notes it. Refused for want of memory alone, which leaves the packages as they
    /// were.
    pub(crate) fn push(
        &mut self,
        packages: &mut Vec<CodegenPkg>,
        package: CodegenPkg,
    ) -> Result<(), Error>
        ensures added { OnOk result (packages.new.items ≡ packages.old.items ++ «package» ∷ []) }
        ensures kept { OnErr result (packages.new.items ≡ packages.old.items) }
        ensures named { HaveNames packages.old.items self.old.names → HaveNames packages.new.items self.new.names }
        ensures noted { HaveNames packages.old.items self.old.names → AreNoted packages.old.items self.old.places → AreNoted packages.new.items self.new.places }
        ensures refused { IfErr result (λ e. e ≡ error.Memory) }
    {
        let number = packages.len();
        let is_first = self.add_name(&package)?;
        packages.push(package)?;
        self.add_if(packages, number, is_first);
        Ok(())
    }

    /// A module that says what the one at a path says, where it is noted.
    fn noted<'p>(
        &self,
        packages: &'p Vec<CodegenPkg>,
        path: &ModulePath,
    ) -> Option<&'p CodegenModule>
        requires noted { AreNoted packages.now.items self.now.places }
        ensures { IfSome result (λ m. IsSourceIn packages.now.items (path_view path.now) (source_of m.now)) }
    {
        match self.places.get(path) {
            Some(place) => module_standing(packages, place),
            None => None,
        }
    }

    /// A module that says what the one at a path says.
    pub(crate) fn module_at<'p>(
        &self,
        alloc: Global,
        packages: &'p Vec<CodegenPkg>,
        path: &ModulePath,
    ) -> Result<&'p CodegenModule, ResolveError>
        requires noted { AreNoted packages.now.items self.now.places }
        ensures found { IfOk result (λ m. IsSourceIn packages.now.items (path_view path.now) (source_of m.now)) }
        ensures missing { IfErr result (OrMemory (IsMissingIn packages.now.items (path_view path.now))) }
    {
        match self.noted(packages, path) {
            Some(module) => Ok(module),
            None => module_at(alloc, packages, path),
        }
    }
}
