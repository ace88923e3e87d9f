//! Linking: what a root module reaches.
ghost use Rattle.std.specs.Prelude.{◌≡◌, ◌↔◌, ◌<◌, ◌∷◌, IsTrue, IfOk, IfErr, Contains};
ghost use Rattle.wesl_link_symbols.specs.declared.ids.PathId.{PathId};
ghost use Rattle.wesl_tree_base.specs.declared.ids.NameId.{NameId};
ghost use Rattle.wesl_link_symbols.specs.declared.symbols.Symbol.{Symbol};
ghost use Rattle.wesl_link_symbols.specs.Names.{asked_for};
ghost use Rattle.wesl_link_reach.specs.World.{LeadsTo};
ghost use Rattle.wesl_link_reach.specs.Faults.{IsAdmitted};
ghost use Rattle.wesl_link_reach.specs.Linking.{task_of};
ghost use Rattle.wesl_link_reach.specs.Loader.{IsReady};
ghost use Rattle.wesl_link_reach.specs.Keeping.{StandsHeld};
ghost use Rattle.wesl_link_reach.specs.Loading.{task_at};
ghost use Rattle.wesl_link_reach.specs.OverLoader.{LoaderAdds, IsLinkedOver, IsExplainedOver, RefusesRequest};

use crate::error::LinkError;
use crate::loader::Loader;
use crate::names;
use crate::reached::Symbols;
use crate::request::{Loaded, Request};
use crate::run::{self, Reach};
use std::alloc::{AllocError, Global};
use std::collections::HashMap;
use std::marker::Model;
use wesl_link_symbols::ids::{NameId, PathId};
use wesl_link_symbols::keyed;
use wesl_link_symbols::symbols::{LookUp, Reference, Symbol};
use wesl_link_symbols::table::Table;

/// The modules that a link loaded, the symbols that it reached, and what each name used in them stands for.
pub struct Linked {
    tables: Vec<Table>,
    symbols: Symbols,
    answers: HashMap<LookUp<PathId, NameId>, Symbol<PathId, NameId>>,
    turns: usize,
}

// By hand, so that it is proved once: a derived one is proved in each crate that lets go of a value.
impl Drop for Linked {
    fn drop(self) {
        let Linked {
            tables: _,
            symbols: _,
            answers: _,
            turns: _,
        } = self;
    }
}

impl Model for Linked {
    ghost use Rattle.wesl_link_reach.specs.Linking.{Linking};
    ghost use Rattle.wesl_link_reach.specs.Keeping.{IsKept};
    ghost use Rattle.wesl_link_symbols.specs.declared.ids.PathId.{PathId};
    ghost use Rattle.wesl_tree_base.specs.declared.ids.NameId.{NameId};

    ghost Value = { Linking PathId NameId };

    ghost view = { λ k. record { tables = k.tables.items; symbols = k.symbols.keys; turns = k.turns } };

    ghost invariant = { λ k. IsKept k.tables.items k.symbols.keys k.answers.entries };
}

impl Linked {
    /// The modules: the root's first, and then by loading.
    pub fn tables(&self) -> &[Table]
        ensures { result.now ≡ self.now.tables }
    {
        &self.tables
    }

    /// The symbols that are reached, in the order in which they were found.
    pub fn symbols(&self) -> &[Symbol<PathId, NameId>]
        ensures { result.now ≡ self.now.symbols }
    {
        self.symbols.as_slice()
    }

    /// How many modules and symbols were taken.
    pub fn turns(&self) -> usize
        ensures { result ≡ self.now.turns }
    {
        self.turns
    }

    /// Whether the symbol of that name in the module at that path is reached.
    pub fn holds(&self, path: PathId, name: NameId) -> bool
        ensures { IsTrue result ↔ Contains self.now.symbols (record { path = path; name = name }) }
    {
        self.symbols.has(Symbol { path, name })
    }

    /// The symbol that what a held declaration of a module asks for stands for (WESL, "Imports").
    pub fn denotes(
        &self,
        table: &Table,
        reference: &Reference<PathId, NameId>,
    ) -> Symbol<PathId, NameId>
        requires loaded { Contains self.now.tables table.now }
        requires held { StandsHeld self.now table.now reference.now }
        ensures found { LeadsTo self.now.tables (asked_for table.now reference.now) result }
        ensures alone { (s : Symbol PathId NameId) → LeadsTo self.now.tables (asked_for table.now reference.now) s → result ≡ s }
    {
        match keyed::value_at(&self.answers, names::ask(table, reference)) {
            Some(symbol) => symbol,
            None => unreachable!(),
        }
    }
}

/// The table of the root, and then those of the other modules, which are taken.
fn all_tables(alloc: Global, root: Table, others: &mut Vec<Table>) -> Result<Vec<Table>, AllocError>
    ensures { IfOk result (λ v. v.items ≡ root ∷ others.old.items) }
{
    let mut tables = Vec::new(alloc);
    tables.push(root)?;
    tables.append(others)?;
    Ok(tables)
}

/// Links a root that is admitted.
fn link<E, L: Loader<E>>(
    alloc: Global,
    request: Request,
    loader: &mut L,
) -> Result<Linked, LinkError<E>>
    requires admitted { IsAdmitted request.root }
    requires ready_paths { IsReady (L.ready loader.old) request.root }
    requires room { 0 < request.max_modules }
    ensures linked { IfOk result (IsLinkedOver L.Loader loader.new request.root (task_at request) request.max_modules) }
    ensures refused { IfErr result (RefusesRequest L.Loader loader.new request) }
    ensures adds { LoaderAdds L.Loader loader.old loader.new }
{
    let mut reach = run::reach_all(alloc, &request, loader)?;
    let Request {
        root,
        kept: _,
        is_eager: _,
        max_modules: _,
    } = request;
    let tables = all_tables(alloc, root, &mut reach.loaded.others)?;
    let Reach { loaded, turns } = reach;
    let Loaded {
        others: _,
        places: _,
        symbols,
        answers,
        trodden: _,
    } = loaded;
    Ok(Linked {
        tables,
        symbols,
        answers,
        turns,
    })
}

/// Loads the modules that the kept names of the root and the const_asserts reach, and no others; or, of an eager link, the
/// modules that the root imports from or refers to, and those that they import from or refer to, and holds all that they
/// declare too.
///
/// `loader` hands out each module but the root, once a path at most; no more than `max_modules` are loaded, the root counted.
/// It is refused where binders of one name with different targets are there at once, where a name stands for two things
/// where it is used or where a look-up comes to it, where a module with such a name has more than 16 flags, where the loader
/// refuses a path, where a look-up finds nothing or nothing that it may see, and where there are more modules than may be
/// (WESL, "Imports", "Visibility" and "ConditionalTranslation").
pub fn link_table<E, L: Loader<E>>(
    alloc: Global,
    root: Table,
    kept: Vec<NameId>,
    is_eager: bool,
    loader: &mut L,
    max_modules: usize,
) -> Result<Linked, LinkError<E>>
    requires { IsReady (L.ready loader.old) root }
    ensures linked { IfOk result (IsLinkedOver L.Loader loader.new root (task_of root kept.items is_eager) max_modules) }
    ensures refused { IfErr result (IsExplainedOver L.Loader loader.new root (task_of root kept.items is_eager) max_modules) }
    ensures adds { LoaderAdds L.Loader loader.old loader.new }
{
    if max_modules == 0 {
        return Err(LinkError::ModuleLimit(0));
    }
    if root.is_crowded() {
        return Err(LinkError::TooManyFlags(root.path()));
    }
    if let Some(name) = names::clash(&root) {
        return Err(LinkError::DuplicateSymbol(root.path(), name));
    }
    let request = Request {
        root,
        kept,
        is_eager,
        max_modules,
    };
    link(alloc, request, loader)
}
