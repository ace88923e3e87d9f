//! What a link found: its modules, what they declare that is reached, and the names that these print as.
ghost use Rattle.std.specs.Prelude.{◌≡◌, ◌⊎◌, ◌↔◌, true, None, IsTrue, OnOk, OnErr, IfOk, IfErr, option_map};
ghost use Rattle.wesl_tree_names.specs.declared.errors.Error as error;
ghost use Rattle.wesl_tree_names.specs.Path.{Text, Path, path_view};
ghost use Rattle.wesl_tree.specs.Translation.{unit_view};
ghost use Rattle.wesl_link_engine.specs.Given.{SameVariants};
ghost use Rattle.wesl_link_engine.specs.Resolved.{paths_of, paths_told, first_path, IsNothing, IsMangled, AssemblesTo, RecordsWrites};
ghost use Rattle.wesl_link_engine.specs.Keeping as linker;
ghost use Rattle.wesl_link_engine.specs.Reasons.{IsHeldIn, TellsOnce, TellsReason, item_at, module_node};

use std::alloc::Global;
use wesl_link_engine::Step;
use wesl_link_sound::law_of_sound_links;
use wesl_mangle_forms::Mangler;
use wesl_tree::TranslationUnit;
use wesl_tree_names::{Error, ModulePath};

/// What a link found, and the names that its symbols print as: their own before any mangling.
pub struct Resolutions {
    pub(crate) found: wesl_link_engine::Resolutions,
    ghost sound: { ∥ linker.IsSound found ∥₁ },
}

// By hand, so that it is proved once: a derived one is proved in each crate that lets go of a value.
impl Drop for Resolutions {
    fn drop(self) {
        let Resolutions { found: _ } = self;
    }
}

impl Resolutions {
    ghost use Rattle.wesl_link.specs.Keeping.{resolved, modules_of, turns_of};

    /// Nothing linked: no module. It takes no memory.
    pub fn new_uninit(alloc: Global) -> Resolutions
        ensures nothing { IsNothing (resolved result) }
    {
        Resolutions {
            found: wesl_link_engine::Resolutions::new_uninit(alloc),
        }
    }

    /// The path of the root, if there is a module.
    pub fn root_path(&self) -> Option<&ModulePath>
        ensures { option_map (λ p. path_view p.now) result ≡ first_path (modules_of self.now) }
    {
        self.found.root_path()
    }

    /// The paths of the modules: the root first, the others in path order. Refused for want of memory alone.
    pub fn module_order(&self, alloc: Global) -> Result<Vec<&ModulePath>, Error>
        ensures order { IfOk result (λ ps. paths_told ps.items ≡ paths_of (modules_of self.now)) }
        ensures refused { IfErr result (λ e. e ≡ error.Memory) }
    {
        self.found.module_order(alloc)
    }

    /// Whether all that the modules declare was asked for, as `resolve_eager` does.
    pub fn is_eager(&self) -> bool
        ensures { result ≡ (resolved self.now).is_eager }
    {
        self.found.is_eager()
    }

    /// How many modules were loaded and symbols reached.
    pub fn turns(&self) -> usize
        ensures { result ≡ turns_of self.now }
    {
        self.found.turns()
    }

    /// Gives each declared name of each module the name that the mangler has for it, the root's only with
    /// `mangle_root` (WESL, "NameMangling"). The mangler writes each of these names once, in module order. Refused for want
    /// of memory alone, and then the names are as before.
    pub fn mangle<M: Mangler>(
        &mut self,
        alloc: Global,
        mangler: &mut M,
        mangle_root: bool,
    ) -> Result<(), Error>
        ensures mangled { OnOk result (IsMangled (M.name_of mangler.old) mangle_root (resolved self.old) (resolved self.new)) }
        ensures recorded { OnOk result (RecordsWrites M.Mangler mangler.old mangler.new mangle_root (modules_of self.old)) }
        ensures same { (p : Path) (x : Text) → M.name_of mangler.new p x ≡ M.name_of mangler.old p x }
        ensures same_variants { SameVariants (M.variant_of mangler.old) (M.variant_of mangler.new) }
        ensures unchanged { OnErr result (self.new ≡ self.old) }
        ensures refused { IfErr result (λ e. e ≡ error.Memory) }
    {
        law_of_sound_links();
        self.found.mangle(alloc, mangler, mangle_root)
    }

    /// The linked unit: the root's directives and held declarations first, then those of the other modules in path
    /// order; of equal adjacent directives one stays. Held are the const_asserts of the modules and the declarations
    /// of reached symbols; of an eager link that is each that declares a name, and `strip` counts for nothing. Refused
    /// for want of memory alone.
    pub fn assemble(&self, alloc: Global, strip: bool) -> Result<TranslationUnit, Error>
        requires stripped { IsTrue strip ⊎ ((resolved self.now).is_eager ≡ true) }
        ensures assembled { IfOk result (λ unit. AssemblesTo (resolved self.now) (unit_view unit)) }
        ensures refused { IfErr result (λ e. e ≡ error.Memory) }
    {
        law_of_sound_links();
        self.found.assemble(alloc, strip)
    }

    /// The linked unit that `assemble` gives, of what is let go with it: the declarations move into the unit, so that less
    /// memory is taken. Refused for want of memory alone.
    pub fn into_unit(self, alloc: Global, strip: bool) -> Result<TranslationUnit, Error>
        requires stripped { IsTrue strip ⊎ ((resolved self).is_eager ≡ true) }
        ensures assembled { IfOk result (λ unit. AssemblesTo (resolved self) (unit_view unit)) }
        ensures refused { IfErr result (λ e. e ≡ error.Memory) }
    {
        law_of_sound_links();
        let Resolutions { found } = self;
        found.into_unit(alloc, strip)
    }

    /// Why the declarations of a name in the module at a path are held (WESL, "Imports"): the steps to their symbol. The first
    /// is a kept name or the root's module, the last the symbol, and each next one is asked for by the one before: by a kept
    /// name, by a declaration, by a const_assert of a module, or in an eager link by a module that takes it with it. No step
    /// stands there twice.
    ///
    /// None where the symbol is not held. Refused for want of memory alone. A call goes once through what the link reached.
    ///
    /// ```
    /// for step in resolutions.reason(alloc, &path, "light")?.iter().flatten() {
    ///     match step {
    ///         Step::KeptName(name) => println!(rt; "{name} is kept")?,
    ///         Step::Module(module) => println!(rt; "{module}, by a const_assert or as a whole")?,
    ///         Step::Item(module, name) => println!(rt; "{name} of {module}")?,
    ///     }
    /// }
    /// ```
    pub fn reason(
        &self,
        alloc: Global,
        path: &ModulePath,
        name: &str,
    ) -> Result<Option<Vec<Step<'_>>>, Error>
        ensures told { IfOk result (TellsReason (resolved self.now) (item_at path.now name.now)) }
        ensures once { IfOk result TellsOnce }
        ensures none { IfOk result (λ o. (o ≡ None) ↔ (IsHeldIn (resolved self.now) (item_at path.now name.now) → ⊥)) }
        ensures refused { IfErr result (λ e. e ≡ error.Memory) }
    {
        law_of_sound_links();
        self.found.reason(alloc, path, name)
    }

    /// Why the module at a path is loaded: the steps to it, as `reason` tells those to a symbol. None where it is not entered.
    /// Refused for want of memory alone.
    pub fn module_reason(
        &self,
        alloc: Global,
        path: &ModulePath,
    ) -> Result<Option<Vec<Step<'_>>>, Error>
        ensures told { IfOk result (TellsReason (resolved self.now) (module_node path.now)) }
        ensures once { IfOk result TellsOnce }
        ensures none { IfOk result (λ o. (o ≡ None) ↔ (IsHeldIn (resolved self.now) (module_node path.now) → ⊥)) }
        ensures refused { IfErr result (λ e. e ≡ error.Memory) }
    {
        law_of_sound_links();
        self.found.module_reason(alloc, path)
    }
}
