//! What a link found: its modules, their numbers, and what is reached.
ghost use Rattle.std.specs.Prelude.{◌≡◌, Some, slice_get};
ghost use Rattle.wesl_link_symbols.specs.declared.ids.PathId.{PathId};
ghost use Rattle.wesl_tree_base.specs.declared.ids.NameId.{NameId};
ghost use Rattle.wesl_link_symbols.specs.Tables as tables;

use crate::loaded::LoadedModule;
use wesl_link_reach::link::Linked;
use wesl_link_symbols::ids::NameId;
use wesl_link_symbols::table::Table;
use wesl_link_tables::texts::NumberTexts;

/// A link that succeeded: its root, its other modules in path order, the names that were kept or that all was asked for,
/// and what is reached.
#[derive(Drop)]
pub struct Link {
    pub root: LoadedModule,
    pub others: Vec<LoadedModule>,
    pub kept: Vec<NameId>,
    pub is_eager: bool,
    pub numbers: NumberTexts,
    pub linked: Linked,
}

/// The symbol table at a place.
pub fn table_at(linked: &Linked, place: usize) -> &Table
    requires { (t : tables.Table PathId NameId) × (slice_get linked.now.tables place ≡ Some t) }
    ensures { slice_get linked.now.tables place ≡ Some result.now }
{
    let Some(table) = linked.tables().get(place) else {
        unreachable!()
    };
    table
}
