//! The symbol table of a module: its imports, its declarations, what some choice of flags keeps together, and indexes by name.
ghost use Rattle.std.specs.Prelude.{◌≡◌, ◌↔◌, ◌++◌, ◌<◌, ◌≤◌, [], flat_map, length, IsTrue, IfOk, IfSome, OnOk};
ghost use Rattle.wesl_link_symbols.specs.Index.{HasAt, IsLast, IsNamed, Binds, Chains, bound_of, name_of};
ghost use Rattle.wesl_link_symbols.specs.Indexed.{IsBlank, AreIndexes};
ghost use Rattle.wesl_link_symbols.specs.Names.{Declares, Sees};
ghost use Rattle.wesl_link_symbols.specs.Row.{Passes};
ghost use Rattle.wesl_link_symbols.specs.RowView.{own_imports, AreRows, IsCovered, IsUnseen};

use crate::ids::{NameId, PathId};
use crate::keyed;
use crate::row::{Row, Rows};
use crate::symbols::{Import, Reference};
use std::alloc::{AllocError, Global};
use std::collections::HashMap;
use std::marker::Model;
use wesl_cond_choices::alive::Alive;
use wesl_cond_choices::place::Place;

/// A declaration, and the names that it uses.
pub struct Declaration {
    name: Option<NameId>,
    place: Place,
    references: Vec<Reference<PathId, NameId>>,
    unclear: Vec<NameId>,
}

// By hand, so that it is proved once: a derived one is proved in each crate that lets go of a value.
impl Drop for Declaration {
    fn drop(self) {
        let Declaration {
            name: _,
            place: _,
            references: _,
            unclear: _,
        } = self;
    }
}

impl Model for Declaration {
    ghost use Rattle.wesl_link_symbols.specs.Tables as tables;
    ghost use Rattle.wesl_link_symbols.specs.declared.ids.PathId.{PathId};
    ghost use Rattle.wesl_tree_base.specs.declared.ids.NameId.{NameId};

    ghost Value = { tables.Declaration PathId NameId };

    ghost view = { λ d. record { name = d.name; place = d.place; references = d.references.items; unclear = d.unclear.items } };
}

impl Declaration {
    /// A declaration of that name, or with none a const_assert.
    ///
    /// It stands at `place`, which is `Always` where its name has one target. `references` is what the names used in it ask
    /// for, and `unclear` the names used in it that stand for two things, both in document order.
    pub fn new(
        name: Option<NameId>,
        place: Place,
        references: Vec<Reference<PathId, NameId>>,
        unclear: Vec<NameId>,
    ) -> Declaration
        ensures { result ≡ record { name = name; place = place; references = references.items; unclear = unclear.items } }
    {
        Declaration {
            name,
            place,
            references,
            unclear,
        }
    }

    /// Its name, and none for a const_assert.
    pub fn name(&self) -> Option<NameId>
        ensures { result ≡ self.now.name }
    {
        self.name
    }

    /// Where it stands.
    pub fn place(&self) -> Place
        ensures { result ≡ self.now.place }
    {
        self.place
    }

    /// What the names that it uses ask for, in document order.
    pub fn references(&self) -> &[Reference<PathId, NameId>]
        ensures { result.now ≡ self.now.references }
    {
        &self.references
    }

    /// The names used in it that stand for two things, in document order.
    pub fn unclear(&self) -> &[NameId]
        ensures { result.now ≡ self.now.unclear }
    {
        &self.unclear
    }
}

/// The symbol table of the module at a path.
pub struct Table {
    path: PathId,
    imports: Vec<Import<PathId, NameId>>,
    declarations: Vec<Declaration>,
    alive: Alive,
    is_crowded: bool,
    // Of each name its last declaration, and of each declaration the one of its name before it.
    latest: HashMap<Option<NameId>, usize>,
    earlier: Vec<Option<usize>>,
    // The same of imports, by the name that they bind.
    latest_import: HashMap<NameId, usize>,
    earlier_import: Vec<Option<usize>>,
    // Its declarations and its imports in rows, where some choice of flags is known.
    rows: Option<Rows>,
}

impl Drop for Table {
    fn drop(self) {
        let Table {
            path: _,
            imports: _,
            declarations: _,
            alive: _,
            is_crowded: _,
            latest: _,
            earlier: _,
            latest_import: _,
            earlier_import: _,
            rows: _,
        } = self;
    }
}

impl Model for Table {
    ghost use Rattle.wesl_link_symbols.specs.Tables as tables;
    ghost use Rattle.wesl_link_symbols.specs.Kept.{IsKept};
    ghost use Rattle.wesl_link_symbols.specs.declared.ids.PathId.{PathId};
    ghost use Rattle.wesl_tree_base.specs.declared.ids.NameId.{NameId};

    ghost Value = { tables.Table PathId NameId };

    ghost view = { λ t. record { path = t.path; imports = t.imports.items; declarations = t.declarations.items; alive = t.alive; is_crowded = t.is_crowded } };

    ghost invariant = { λ t. IsKept t.alive t.path t.imports.items t.declarations.items t.latest.entries t.earlier.items t.latest_import.entries t.earlier_import.items t.rows };
}

/// Ties each declaration to the one of its name before it.
fn tie(
    latest: &mut HashMap<Option<NameId>, usize>,
    earlier: &mut Vec<Option<usize>>,
    declarations: &[Declaration],
) -> Result<(), AllocError>
    requires first { latest.old.entries ≡ [] }
    requires none { earlier.old.items ≡ [] }
    ensures { OnOk result (Chains name_of declarations.now (length declarations.now) latest.new.entries earlier.new.items) }
{
    for (index, declaration) in declarations.iter().enumerate() {
        let name = declaration.name();
        earlier.push(keyed::value_at(latest, name))?;
        keyed::put(latest, name, index)?;
    }
    Ok(())
}

/// Ties each import to the one before it that binds its name.
fn tie_imports(
    latest: &mut HashMap<NameId, usize>,
    earlier: &mut Vec<Option<usize>>,
    imports: &[Import<PathId, NameId>],
) -> Result<(), AllocError>
    requires first { latest.old.entries ≡ [] }
    requires none { earlier.old.items ≡ [] }
    ensures { OnOk result (Chains bound_of imports.now (length imports.now) latest.new.entries earlier.new.items) }
{
    for (index, import) in imports.iter().enumerate() {
        earlier.push(keyed::value_at(latest, import.bound))?;
        keyed::put(latest, import.bound, index)?;
    }
    Ok(())
}

/// The indexes of a module, as its table has them.
#[derive(Drop)]
struct Indexed {
    latest: HashMap<Option<NameId>, usize>,
    earlier: Vec<Option<usize>>,
    latest_import: HashMap<NameId, usize>,
    earlier_import: Vec<Option<usize>>,
}

impl Indexed {
    /// No indexes. They take no memory.
    fn new(alloc: Global) -> Indexed
        ensures { IsBlank result }
    {
        Indexed {
            latest: HashMap::new(alloc),
            earlier: Vec::new(alloc),
            latest_import: HashMap::new(alloc),
            earlier_import: Vec::new(alloc),
        }
    }

    /// The indexes of these imports and declarations.
    fn of(
        alloc: Global,
        imports: &[Import<PathId, NameId>],
        declarations: &[Declaration],
    ) -> Result<Indexed, AllocError>
        ensures { IfOk result (λ x. AreIndexes imports.now declarations.now x) }
    {
        let mut indexed = Indexed::new(alloc);
        match indexed.fill(imports, declarations) {
            Ok(()) => Ok(indexed),
            Err(refused) => Err(refused),
        }
    }

    /// Indexes imports and declarations. It holds nothing, so where memory is wanting there is nothing to let go.
    fn fill(
        &mut self,
        imports: &[Import<PathId, NameId>],
        declarations: &[Declaration],
    ) -> Result<(), AllocError>
        requires { IsBlank self.old }
        ensures { OnOk result (AreIndexes imports.now declarations.now self.new) }
    {
        tie(&mut self.latest, &mut self.earlier, declarations)?;
        tie_imports(&mut self.latest_import, &mut self.earlier_import, imports)
    }
}

/// Whether some choice of flags is known.
fn is_any(alive: &Alive) -> bool {
    alive.together(Place::Always, Place::Always)
}

/// Adds a declaration as an import of the name that it binds, if it binds one.
fn add_own(
    found: &mut Vec<Import<PathId, NameId>>,
    path: PathId,
    declaration: &Declaration,
) -> Result<(), AllocError>
    ensures { OnOk result (found.new.items ≡ found.old.items ++ own_imports path declaration.now) }
{
    let Some(name) = declaration.name() else {
        return Ok(());
    };
    found.push(Import {
        bound: name,
        path,
        item: name,
        published: true,
        place: declaration.place(),
        from: Place::Always,
        order: 0,
    })?;
    Ok(())
}

/// Adds the declarations as imports of the names that they bind.
fn add_declared(
    found: &mut Vec<Import<PathId, NameId>>,
    path: PathId,
    declarations: &[Declaration],
) -> Result<(), AllocError>
    requires { found.old.items ≡ [] }
    ensures { OnOk result (found.new.items ≡ flat_map (own_imports path) declarations.now) }
{
    for declaration in declarations {
        add_own(found, path, declaration)?;
    }
    Ok(())
}

/// The rows of a module.
fn rows_in(
    alloc: Global,
    path: PathId,
    alive: &Alive,
    imports: &[Import<PathId, NameId>],
    declarations: &[Declaration],
) -> Result<Rows, AllocError>
    ensures { IfOk result (λ r. AreRows alive.now path imports.now declarations.now r) }
{
    let mut declared = Vec::new(alloc);
    add_declared(&mut declared, path, declarations)?;
    Rows::of(alloc, alive, &declared, imports)
}

/// The rows of a module, where some choice of flags is known: else each name of it has one target, and they are not needed.
fn rows_of(
    alloc: Global,
    path: PathId,
    alive: &Alive,
    imports: &[Import<PathId, NameId>],
    declarations: &[Declaration],
) -> Result<Option<Rows>, AllocError>
    ensures { IfOk result (λ o. IfSome o (λ r. AreRows alive.now path imports.now declarations.now r)) }
{
    if !is_any(alive) {
        return Ok(None);
    }
    match rows_in(alloc, path, alive, imports, declarations) {
        Ok(rows) => Ok(Some(rows)),
        Err(refused) => Err(refused),
    }
}

impl Table {
    /// The table of the module at a path, with its imports and its declarations in document order.
    ///
    /// `alive` says which of their places some choice of feature flags keeps together, and `is_crowded` that a name of the
    /// module has several targets and that its conditions name more than 16 flags.
    pub fn new(
        alloc: Global,
        path: PathId,
        imports: Vec<Import<PathId, NameId>>,
        declarations: Vec<Declaration>,
        alive: Alive,
        is_crowded: bool,
    ) -> Result<Table, AllocError>
        ensures { IfOk result (λ t. t ≡ record { path = path; imports = imports.items; declarations = declarations.items; alive = alive; is_crowded = is_crowded }) }
    {
        let rows = rows_of(alloc, path, &alive, &imports, &declarations)?;
        let indexed = Indexed::of(alloc, &imports, &declarations)?;
        Ok(Table {
            path,
            imports,
            declarations,
            alive,
            is_crowded,
            latest: indexed.latest,
            earlier: indexed.earlier,
            latest_import: indexed.latest_import,
            earlier_import: indexed.earlier_import,
            rows,
        })
    }

    /// The path of the module.
    pub fn path(&self) -> PathId
        ensures { result ≡ self.now.path }
    {
        self.path
    }

    /// Its imports, in document order.
    pub fn imports(&self) -> &[Import<PathId, NameId>]
        ensures { result.now ≡ self.now.imports }
    {
        &self.imports
    }

    /// Its declarations, in document order.
    pub fn declarations(&self) -> &[Declaration]
        ensures { result.now ≡ self.now.declarations }
    {
        &self.declarations
    }

    /// Whether a name of it has several targets, and its conditions name more than 16 flags.
    pub fn is_crowded(&self) -> bool
        ensures { result ≡ self.now.is_crowded }
    {
        self.is_crowded
    }

    /// Whether what stands at a place is seen from there.
    pub fn sees(&self, from: Place, place: Place) -> bool
        ensures { IsTrue result ↔ Sees self.now from place }
    {
        place == Place::Always || self.alive.together(from, place)
    }

    /// Its declarations and its imports in rows, where some choice of flags is known.
    pub(crate) fn rows(&self) -> Option<&Rows>
        ensures { IfSome result (λ r. AreRows self.now.alive self.now.path self.now.imports self.now.declarations r.now) }
    {
        self.rows.as_ref()
    }

    /// The index in a row of the first import, from one index on, that is not passed: none of those before it is seen.
    pub(crate) fn next_in(&self, row: &Row, from: Place, index: usize) -> usize
        requires { IsCovered self.now.alive row.now }
        ensures ahead { index ≤ result }
        ensures unseen { Passes (IsUnseen self.now.alive from) row.now.imports.items index result }
    {
        row.next(&self.alive, from, index)
    }

    /// The index of the last declaration of that name.
    pub fn latest_of(&self, name: Option<NameId>) -> Option<usize>
        ensures { IsLast (IsNamed name) self.now.declarations (length self.now.declarations) result }
    {
        keyed::value_at(&self.latest, name)
    }

    /// The index of the declaration before that has the name of this one.
    pub fn earlier_of(&self, index: usize, name: Option<NameId>) -> Option<usize>
        requires { HasAt (IsNamed name) self.now.declarations index }
        ensures { IsLast (IsNamed name) self.now.declarations index result }
    {
        self.earlier[index]
    }

    /// The index of the last import that binds that name.
    pub fn latest_import_of(&self, name: NameId) -> Option<usize>
        ensures { IsLast (Binds name) self.now.imports (length self.now.imports) result }
    {
        keyed::value_at(&self.latest_import, name)
    }

    /// The index of the import before that binds the name of this one.
    pub fn earlier_import_of(&self, index: usize, name: NameId) -> Option<usize>
        requires { HasAt (Binds name) self.now.imports index }
        ensures { IsLast (Binds name) self.now.imports index result }
    {
        self.earlier_import[index]
    }

    /// Whether it declares the name.
    pub fn declares(&self, name: NameId) -> bool
        ensures { IsTrue result ↔ Declares self.now name }
    {
        self.latest_of(Some(name)).is_some()
    }
}
