//! The modules that a link loaded, each with its unit.
ghost use Rattle.std.specs.Prelude.{◌≡◌, Some, IfOk};
ghost use Rattle.std.specs.Map.{lookup};
ghost use Rattle.wesl_link_reach.specs.Faults.{AreDistinct};
ghost use Rattle.wesl_link_reach.specs.Linking.{paths};
ghost use Rattle.wesl_link_tables.specs.NumbersView.{numbering};
ghost use Rattle.wesl_link_engine.specs.Taking.{AreKept, AreTaken, LeavesOthers, path_eq};

use crate::refusals::path_of;
use indexmap::IndexMap;
use std::alloc::{AllocError, Global};
use wesl_link_symbols::ids::PathId;
use wesl_link_symbols::table::Table;
use wesl_link_tables::marks::Mark;
use wesl_link_tables::numbers::Numbers;
use wesl_tree::TranslationUnit;
use wesl_tree_names::{ModulePath, law_of_order};

/// A unit that is held for a path, and of each of its declarations what the identifiers are.
#[derive(Drop)]
pub struct Held {
    pub unit: TranslationUnit,
    pub marks: Vec<Vec<Mark>>,
}

/// A module that was loaded: its path, where its symbol table stands, its unit, and of each of its declarations what
/// the identifiers are.
#[derive(Drop)]
pub struct LoadedModule {
    pub path: ModulePath,
    pub place: usize,
    pub unit: TranslationUnit,
    pub marks: Vec<Vec<Mark>>,
}

/// Takes the unit that is kept for a path.
fn take_unit<T>(units: &mut IndexMap<PathId, T>, id: PathId) -> T
    requires { (u : T) × (lookup (path_eq id) units.old.entries ≡ Some u) }
    ensures taken { lookup (path_eq id) units.old.entries ≡ Some result }
    ensures others { LeavesOthers id units.old.entries units.new.entries }
{
    let Some(unit) = units.swap_remove(&id) else {
        unreachable!()
    };
    unit
}

/// Takes the module of each table, which are those of a link after its root, and puts them in the order of their paths.
pub fn take_modules(
    alloc: Global,
    numbers: &Numbers,
    tables: &[Table],
    units: &mut IndexMap<PathId, Held>,
) -> Result<Vec<LoadedModule>, AllocError>
    requires kept { AreKept (numbering numbers.now) units.old.entries tables.now }
    requires once { AreDistinct (paths tables.now) }
    ensures { IfOk result (λ ms. AreTaken (numbering numbers.now) units.old.entries tables.now ms.items) }
{
    let mut modules = Vec::new(alloc);
    for (index, table) in tables.iter().enumerate() {
        let id = table.path();
        let path = path_of(alloc, numbers, id)?;
        let Held { unit, marks } = take_unit(units, id);
        modules.push(LoadedModule {
            path,
            place: index + 1,
            unit,
            marks,
        })?;
    }
    law_of_order();
    modules.sort_unstable_by(|a, b| a.path.cmp(&b.path));
    Ok(modules)
}
