//! What a link found: its modules, what they declare that is reached, and the names that these print as.
ghost use Rattle.std.specs.Prelude.{◌≡◌, ◌⊎◌, ◌↔◌, true, None, IsTrue, OnOk, OnErr, IfOk, IfErr, option_map};
ghost use Rattle.wesl_tree_names.specs.declared.errors.Error as error;
ghost use Rattle.wesl_tree_names.specs.Path.{Text, Path, path_view};
ghost use Rattle.wesl_tree.specs.Translation.{unit_view};
ghost use Rattle.wesl_link_engine.specs.Given.{SameVariants};
ghost use Rattle.wesl_link_engine.specs.GivenView.{given as given_names};
ghost use Rattle.wesl_link_engine.specs.Resolved.{paths_of, paths_told, first_path, IsNothing, IsMangled, AssemblesTo, RecordsWrites};
ghost use Rattle.wesl_link_engine.specs.Keeping.{modules_in, IsLinkOf, task_in, IsSound, resolved, modules_of, turns_of};
ghost use Rattle.wesl_link_engine.specs.Holding.{IsGivenAll};
ghost use Rattle.wesl_link_engine.specs.Reasons.{IsHeldIn, TellsOnce, TellsReason, item_at, module_node};

use crate::assemble::assembled;
use crate::given::GivenNames;
use crate::link::{Link, table_at};
use crate::moving::moved;
use crate::reasons::{item_reason, module_reason};
use crate::steps::Step;
use std::alloc::{AllocError, Global};
use wesl_mangle_forms::Mangler;
use wesl_tree::TranslationUnit;
use wesl_tree_names::{Error, ModulePath};

/// What a link found, and the names that its symbols print as: their own before any mangling.
pub struct Resolutions {
    pub(crate) link: Option<Link>,
    pub(crate) given: GivenNames,
}

// By hand, so that it is proved once: a derived one is proved in each crate that lets go of a value.
impl Drop for Resolutions {
    fn drop(self) {
        let Resolutions { link: _, given: _ } = self;
    }
}

/// The names that a mangler has for what the modules of a link declare, the root's only with `mangle_root`.
fn names_of<M: Mangler>(
    alloc: Global,
    link: &Link,
    mangler: &mut M,
    mangle_root: bool,
) -> Result<GivenNames, AllocError>
    requires sound { IsLinkOf (task_in link.now) link.now }
    ensures given { IfOk result (λ names. IsGivenAll link.now mangle_root (M.name_of mangler.old) (given_names names)) }
    ensures recorded { OnOk result (RecordsWrites M.Mangler mangler.old mangler.new mangle_root (modules_in link.now)) }
    ensures same { (p : Path) (x : Text) → M.name_of mangler.new p x ≡ M.name_of mangler.old p x }
    ensures same_variants { SameVariants (M.variant_of mangler.old) (M.variant_of mangler.new) }
{
    let mut given = GivenNames::new(alloc);
    let numbers = &link.numbers;
    if mangle_root {
        let table = table_at(&link.linked, link.root.place);
        given.add_table(alloc, mangler, numbers, &link.root.path, table)?;
    }
    for module in &link.others {
        let table = table_at(&link.linked, module.place);
        given.add_table(alloc, mangler, numbers, &module.path, table)?;
    }
    Ok(given)
}

impl Resolutions {
    /// Nothing linked: no module. It takes no memory.
    pub fn new_uninit(alloc: Global) -> Resolutions
        ensures nothing { IsNothing (resolved result) }
        ensures sound { IsSound result }
    {
        Resolutions {
            link: None,
            given: GivenNames::new(alloc),
        }
    }

    /// The path of the root, if there is a module.
    pub fn root_path(&self) -> Option<&ModulePath>
        ensures { option_map (λ p. path_view p.now) result ≡ first_path (modules_of self.now) }
    {
        match &self.link {
            Some(link) => Some(&link.root.path),
            None => None,
        }
    }

    /// The paths of the modules: the root first, the others in path order. Refused for want of memory alone.
    pub fn module_order(&self, alloc: Global) -> Result<Vec<&ModulePath>, Error>
        ensures order { IfOk result (λ ps. paths_told ps.items ≡ paths_of (modules_of self.now)) }
        ensures refused { IfErr result (λ e. e ≡ error.Memory) }
    {
        let mut paths = Vec::new(alloc);
        if let Some(link) = &self.link {
            paths.push(&link.root.path)?;
            for module in &link.others {
                paths.push(&module.path)?;
            }
        }
        Ok(paths)
    }

    /// Whether all that the modules declare was asked for.
    pub fn is_eager(&self) -> bool
        ensures { result ≡ (resolved self.now).is_eager }
    {
        match &self.link {
            Some(link) => link.is_eager,
            None => false,
        }
    }

    /// How many modules were loaded and symbols reached.
    pub fn turns(&self) -> usize
        ensures { result ≡ turns_of self.now }
    {
        match &self.link {
            Some(link) => link.linked.turns(),
            None => 0,
        }
    }

    /// Gives each declared name of each module the name that the mangler has for it, the root's only with
    /// `mangle_root` (WESL, "NameMangling"). The mangler writes each of these names once, in module order. Refused for want
    /// of memory alone, and then the names are as before.
    pub fn mangle<M: Mangler>(
        &mut self,
        alloc: Global,
        mangler: &mut M,
        mangle_root: bool,
    ) -> Result<(), Error>
        requires sound { IsSound self.old }
        ensures sound { IsSound self.new }
        ensures mangled { OnOk result (IsMangled (M.name_of mangler.old) mangle_root (resolved self.old) (resolved self.new)) }
        ensures recorded { OnOk result (RecordsWrites M.Mangler mangler.old mangler.new mangle_root (modules_of self.old)) }
        ensures same { (p : Path) (x : Text) → M.name_of mangler.new p x ≡ M.name_of mangler.old p x }
        ensures same_variants { SameVariants (M.variant_of mangler.old) (M.variant_of mangler.new) }
        ensures unchanged { OnErr result (self.new ≡ self.old) }
        ensures refused { IfErr result (λ e. e ≡ error.Memory) }
    {
        if let Some(link) = &self.link {
            self.given = names_of(alloc, link, mangler, mangle_root)?;
        }
        Ok(())
    }

    /// The linked unit: the root's directives and held declarations first, then those of the other modules in path
    /// order; of equal adjacent directives one stays. Held are the const_asserts of the modules and the declarations
    /// of reached symbols; of an eager link that is each that declares a name, and `strip` counts for nothing. Refused
    /// for want of memory alone.
    pub fn assemble(&self, alloc: Global, strip: bool) -> Result<TranslationUnit, Error>
        requires sound { IsSound self.now }
        requires stripped { IsTrue strip ⊎ ((resolved self.now).is_eager ≡ true) }
        ensures assembled { IfOk result (λ unit. AssemblesTo (resolved self.now) (unit_view unit)) }
        ensures refused { IfErr result (λ e. e ≡ error.Memory) }
    {
        match &self.link {
            Some(link) => assembled(alloc, link, &self.given),
            None => Ok(TranslationUnit::new(alloc)),
        }
    }

    /// The linked unit that `assemble` gives, of what is let go with it: the declarations move into the unit.
    pub fn into_unit(self, alloc: Global, strip: bool) -> Result<TranslationUnit, Error>
        requires sound { IsSound self }
        requires stripped { IsTrue strip ⊎ ((resolved self).is_eager ≡ true) }
        ensures assembled { IfOk result (λ unit. AssemblesTo (resolved self) (unit_view unit)) }
        ensures refused { IfErr result (λ e. e ≡ error.Memory) }
    {
        let Resolutions { link, given } = self;
        match link {
            Some(link) => moved(alloc, link, &given),
            None => Ok(TranslationUnit::new(alloc)),
        }
    }

    /// Why the declarations of a name in the module at a path are held: steps from a kept name or the root's module to them,
    /// each next one asked for by the one before, and none there twice. None where their symbol is not reached. Refused for want of memory alone.
    pub fn reason(
        &self,
        alloc: Global,
        path: &ModulePath,
        name: &str,
    ) -> Result<Option<Vec<Step<'_>>>, Error>
        requires sound { IsSound self.now }
        ensures told { IfOk result (TellsReason (resolved self.now) (item_at path.now name.now)) }
        ensures once { IfOk result TellsOnce }
        ensures none { IfOk result (λ o. (o ≡ None) ↔ (IsHeldIn (resolved self.now) (item_at path.now name.now) → ⊥)) }
        ensures refused { IfErr result (λ e. e ≡ error.Memory) }
    {
        match &self.link {
            Some(link) => Ok(item_reason(alloc, link, path, name)?),
            None => Ok(None),
        }
    }

    /// Why the module at a path is loaded: the same of it. None where it is not entered. Refused for want of memory alone.
    pub fn module_reason(
        &self,
        alloc: Global,
        path: &ModulePath,
    ) -> Result<Option<Vec<Step<'_>>>, Error>
        requires sound { IsSound self.now }
        ensures told { IfOk result (TellsReason (resolved self.now) (module_node path.now)) }
        ensures once { IfOk result TellsOnce }
        ensures none { IfOk result (λ o. (o ≡ None) ↔ (IsHeldIn (resolved self.now) (module_node path.now) → ⊥)) }
        ensures refused { IfErr result (λ e. e ≡ error.Memory) }
    {
        match &self.link {
            Some(link) => Ok(module_reason(alloc, link, path)?),
            None => Ok(None),
        }
    }
}
