//! What is to be linked, and what is loaded so far.
ghost use Rattle.std.specs.Prelude.{◌≡◌, ◌<◌, length, slice_get, Some, IfSome, IfNone, [], ◌∷◌};
ghost use Rattle.wesl_link_symbols.specs.declared.ids.PathId.{PathId};
ghost use Rattle.wesl_tree_base.specs.declared.ids.NameId.{NameId};
ghost use Rattle.wesl_link_symbols.specs.Tables as tables;
ghost use Rattle.wesl_link_reach.specs.World.{IsAt};
ghost use Rattle.wesl_link_reach.specs.Loading.{ArePlaced, world_of};

use crate::reached::Symbols;
use crate::trodden::Trodden;
use std::alloc::Global;
use std::collections::HashMap;
use wesl_link_symbols::ids::{NameId, PathId};
use wesl_link_symbols::keyed;
use wesl_link_symbols::symbols::{LookUp, Symbol};
use wesl_link_symbols::table::Table;

/// What to link: the root, the names of it that are kept, whether all that is declared is held, and how many modules there may be.
#[derive(Drop)]
pub struct Request {
    pub root: Table,
    pub kept: Vec<NameId>,
    pub is_eager: bool,
    pub max_modules: usize,
}

/// The modules beside the root and the symbols that are reached, in the order in which they were found.
#[derive(Drop)]
pub struct Loaded {
    pub others: Vec<Table>,
    /// Where the module of a path stands.
    pub places: HashMap<PathId, usize>,
    pub symbols: Symbols,
    /// What each look-up that was followed leads to.
    pub answers: HashMap<LookUp<PathId, NameId>, Symbol<PathId, NameId>>,
    /// What the look-ups lead to that others came by.
    pub trodden: Trodden,
}

/// Nothing beside the root.
pub fn begin(alloc: Global) -> Loaded
    ensures others { result.others.items ≡ [] }
    ensures places { result.places.entries ≡ [] }
    ensures symbols { result.symbols.keys ≡ [] }
    ensures answers { result.answers.entries ≡ [] }
    ensures steps { result.trodden.steps ≡ [] }
{
    Loaded {
        others: Vec::new(alloc),
        places: HashMap::new(alloc),
        symbols: Symbols::new(alloc),
        answers: HashMap::new(alloc),
        trodden: Trodden::new(alloc),
    }
}

/// The module at a path, if it is loaded.
pub fn loaded_table<'a>(request: &'a Request, loaded: &'a Loaded, path: PathId) -> Option<&'a Table>
    requires { ArePlaced loaded.now.others.items loaded.now.places.entries }
    ensures found { IfSome result (λ t. IsAt (world_of request.now loaded.now) path t.now) }
    ensures none { IfNone result ((t : tables.Table PathId NameId) → IsAt (world_of request.now loaded.now) path t → ⊥) }
{
    if request.root.path() == path {
        return Some(&request.root);
    }
    match keyed::value_at(&loaded.places, path) {
        Some(place) => Some(&loaded.others[place]),
        None => None,
    }
}

/// The module at a place, the root's first.
pub fn table_at<'a>(request: &'a Request, loaded: &'a Loaded, place: usize) -> &'a Table
    requires { place < length (world_of request.now loaded.now) }
    ensures { slice_get (world_of request.now loaded.now) place ≡ Some result.now }
{
    if place == 0 {
        return &request.root;
    }
    &loaded.others[place - 1]
}
