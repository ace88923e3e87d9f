//! The modules of a bundle.
ghost use Rattle.std.specs.Prelude.{◌≡◌, ◌++◌, ◌∷◌, [], List, OnOk, option_map};
ghost use Rattle.wesl_json_form.specs.View.{borrowed_view};
ghost use Rattle.wesl_tree_names.specs.Path.{path_view};
ghost use Rattle.wesl_program.specs.Bundle.{Module};
ghost use Rattle.wesl_program.specs.Hands.{unit_in};

use indexmap::IndexMap;
use std::alloc::{AllocError, Global};
use wesl_json_form::BorrowedValue;
use wesl_tree::ModulePath;

/// The value of the unit at each path, of a path that stands twice the later. No unit is read yet.
#[derive(Drop)]
pub struct BundleUnits<'t> {
    units: IndexMap<ModulePath, BorrowedValue<'t>>,
}

impl<'t> BundleUnits<'t> {
    ghost use Rattle.wesl_program.specs.Holds.{Holds};

    /// No modules. It takes no memory.
    pub(crate) fn new(alloc: Global) -> BundleUnits<'t>
        ensures { Holds [] result }
    {
        BundleUnits {
            units: IndexMap::new(alloc),
        }
    }

    /// One more module, in the place of the one that was at its path.
    pub(crate) fn add(
        &mut self,
        path: ModulePath,
        unit: BorrowedValue<'t>,
    ) -> Result<(), AllocError>
        ensures added { OnOk result ((ms : List Module) → Holds ms self.old → Holds (ms ++ (record { path = path_view path; unit = borrowed_view unit.entry }) ∷ []) self.new) }
    {
        self.units.insert(path, unit)?;
        Ok(())
    }

    /// The value of the unit at a path.
    pub(crate) fn unit_at(&self, path: &ModulePath) -> Option<&BorrowedValue<'t>>
        ensures { option_map (λ v. borrowed_view v.now) result ≡ unit_in self.now (path_view path.now) }
    {
        self.units.get(path)
    }
}
