//! A link over symbol tables, with why each thing is held in it.
ghost use Rattle.std.specs.Prelude.{◌≡◌, ◌↔◌, Some, None, false, IfOk, IfSome, IsTrue, Contains};
ghost use Rattle.wesl_tree_names.specs.Path.{path_view, is_relative};
ghost use Rattle.wesl_link_reach.specs.Keeping.{IsHeld};
ghost use Rattle.wesl_link_reasons.specs.Found.{AreReasons};
ghost use Rattle.wesl_link_reasons.specs.Reasons.{task_from};
ghost use Rattle.wesl_explain_world.specs.Why.{HasItsReasons, IsLink, TellsWhy, node_of};

use crate::loading::TableLoader;
use std::alloc::{AllocError, Global};
use std::collections::HashMap;
use wesl_link_engine::LinkRequest;
use wesl_link_reach::error::LinkError;
use wesl_link_reach::link::{Linked, link_table};
use wesl_link_reach::loader::{LoadError, Loader};
use wesl_link_reasons::node::Node;
use wesl_link_reasons::{Reasons, law_of_links, reasons_of};
use wesl_link_symbols::ids::{NameId, PathId};
use wesl_link_symbols::keyed;
use wesl_link_symbols::symbols::Symbol;
use wesl_link_symbols::table::Table;
use wesl_tree::ModulePath;
use wesl_tree_names::{Diagnostic, Error, ResolveError};

/// Who asked for something, and who asked for that one: the first is there without being asked for.
pub type Steps = Vec<Node<PathId, NameId>>;

/// What a link reached, and why.
#[derive(Drop)]
pub struct World {
    pub linked: Linked,
    pub reasons: Reasons,
    /// where the table of each path stands
    pub places: HashMap<PathId, usize>,
    /// the paths of the modules, the root's first
    pub order: Vec<PathId>,
    /// the names of the root that are kept
    pub kept: Vec<NameId>,
}

/// Why the symbol of a name in a module is held: a chain without steps where it is not.
fn symbol_chain(
    alloc: Global,
    reasons: &Reasons,
    path: PathId,
    name: NameId,
) -> Result<Steps, AllocError>
    ensures { IfOk result (λ chain. TellsWhy reasons.now (node_of path (Some name)) chain.items) }
{
    match reasons.of_symbol(alloc, Symbol { path, name })? {
        Some(chain) => Ok(chain),
        None => Ok(Vec::new(alloc)),
    }
}

/// Why a module is loaded: a chain without steps where it is not.
fn module_chain(alloc: Global, reasons: &Reasons, path: PathId) -> Result<Steps, AllocError>
    ensures { IfOk result (λ chain. TellsWhy reasons.now (node_of path None) chain.items) }
{
    match reasons.of_module(alloc, path)? {
        Some(chain) => Ok(chain),
        None => Ok(Vec::new(alloc)),
    }
}

/// What holds the declarations of a name: their symbol; and what holds a const_assert: its module.
pub fn node_at(path: PathId, name: Option<NameId>) -> Node<PathId, NameId>
    ensures { result ≡ node_of path name }
{
    match name {
        Some(name) => Node::Item(Symbol { path, name }),
        None => Node::Module(path),
    }
}

/// Why a declaration is held: that of a name, or a const_assert.
pub fn reason_of(
    alloc: Global,
    reasons: &Reasons,
    path: PathId,
    name: Option<NameId>,
) -> Result<Steps, AllocError>
    ensures { IfOk result (λ chain. TellsWhy reasons.now (node_of path name) chain.items) }
{
    match name {
        Some(name) => symbol_chain(alloc, reasons, path, name),
        None => module_chain(alloc, reasons, path),
    }
}

impl World {
    /// The root's path.
    pub fn root(&self) -> Option<PathId> {
        self.order.first().copied()
    }

    /// The table of the module at a path.
    pub fn table(&self, path: PathId) -> Option<&Table>
        ensures { IfSome result (λ t. Contains self.now.linked.tables t.now) }
    {
        match keyed::value_at(&self.places, path) {
            Some(place) => self.linked.tables().get(place),
            None => None,
        }
    }

    /// Whether a declaration is held: that of a name where its symbol is reached, and each const_assert.
    pub fn holds(&self, path: PathId, name: Option<NameId>) -> bool
        ensures { IsTrue result ↔ IsHeld self.now.linked path name }
    {
        match name {
            Some(name) => self.linked.holds(path, name),
            None => true,
        }
    }
}

/// The numbers of the names that are kept: none where all that is declared is asked for.
pub fn kept_names(
    alloc: Global,
    loader: &mut TableLoader<'_>,
    request: &LinkRequest<'_>,
) -> Result<Vec<NameId>, AllocError> {
    let mut kept = Vec::new(alloc);
    if request.is_eager {
        return Ok(kept);
    }
    for name in request.keep {
        kept.push(loader.numbers.name(name)?)?;
    }
    Ok(kept)
}

/// The numbers of paths, in their order.
fn numbers_of(
    alloc: Global,
    loader: &mut TableLoader<'_>,
    order: &[&ModulePath],
) -> Result<Vec<PathId>, AllocError> {
    let mut paths = Vec::new(alloc);
    for path in order {
        if !path.is_relative() {
            paths.push(loader.numbers.path(alloc, path)?)?;
        }
    }
    Ok(paths)
}

/// Where the table of each path stands.
fn places_of(alloc: Global, tables: &[Table]) -> Result<HashMap<PathId, usize>, AllocError> {
    let mut places = HashMap::new(alloc);
    for (place, table) in tables.iter().enumerate() {
        keyed::put(&mut places, table.path(), place)?;
    }
    Ok(places)
}

// The refusal of a second link of the same modules, which tells what the first did not: want of memory, but for a resolver
// that answers otherwise when it is asked again.
fn refusal_of(error: LinkError<ResolveError>) -> Error {
    match error {
        LinkError::Refused(refusal) => Error::of_resolve(refusal),
        _ => Error::Memory,
    }
}

/// The table of the root.
pub fn root_table(
    alloc: Global,
    loader: &mut TableLoader<'_>,
    root: &ModulePath,
) -> Result<Table, Error>
    requires { is_relative (path_view root.now) ≡ false }
{
    let id = loader.numbers.path(alloc, root)?;
    match loader.load(alloc, id) {
        Ok(table) => Ok(table),
        Err(LoadError::Refused(refusal)) => Err(Error::of_resolve(refusal)),
        Err(LoadError::Memory) => Err(Error::Memory),
    }
}

/// Links tables from the root's, with why each thing is held.
fn link_with_reasons(
    alloc: Global,
    loader: &mut TableLoader<'_>,
    root: Table,
    kept: &[NameId],
    is_eager: bool,
    max_modules: usize,
) -> Result<(Linked, Reasons), Error>
    ensures linked { IfOk result (λ found. IsLink root (task_from root.path kept.now is_eager) found.0) }
    ensures reasons { IfOk result (λ found. AreReasons found.0.tables (task_from root.path kept.now is_eager) found.1) }
{
    let path = root.path();
    let kept_again = Vec::from_slice(alloc, kept)?;
    match link_table(alloc, root, kept_again, is_eager, loader, max_modules) {
        Ok(linked) => {
            law_of_links(loader);
            let reasons = reasons_of(alloc, linked.tables(), path, kept, is_eager)?;
            Ok((linked, reasons))
        }
        Err(error) => Err(refusal_of(error)),
    }
}

/// Links what is asked for over symbol tables. `order` has the paths of the modules, the root's first.
pub fn world_of(
    alloc: Global,
    loader: &mut TableLoader<'_>,
    request: &LinkRequest<'_>,
    order: &[&ModulePath],
) -> Result<World, Error>
    requires { is_relative (path_view request.now.root.now) ≡ false }
    ensures { IfOk result (HasItsReasons request.now.is_eager) }
{
    let root = root_table(alloc, loader, request.root)?;
    let kept = kept_names(alloc, loader, request)?;
    let (linked, reasons) = link_with_reasons(
        alloc,
        loader,
        root,
        &kept,
        request.is_eager,
        request.max_modules,
    )?;
    let places = places_of(alloc, linked.tables())?;
    let order = numbers_of(alloc, loader, order)?;
    Ok(World {
        linked,
        reasons,
        places,
        order,
        kept,
    })
}
