//! The symbol table of a module.
ghost use Rattle.std.specs.Prelude.{◌≡◌, ◌<◌, ◌++◌, ◌∷◌, [], suc, false, IfOk, OnOk, length, get_or, map};
ghost use Rattle.wesl_tree_names.specs.Path.{path_view, is_relative};
ghost use Rattle.wesl_tree_syntax.specs.Unit.{name_in, spelled};
ghost use Rattle.wesl_tree.specs.Translation.{unit_view};
ghost use Rattle.wesl_scope_occurrences.specs.Pieces.{declarations_in};
ghost use Rattle.wesl_link_tables.specs.Marks.{AreMarked};
ghost use Rattle.wesl_link_split.specs.Grouped.{ids};
ghost use Rattle.wesl_link_split.specs.ScopeView.{scope_view};
ghost use Rattle.wesl_link_split.specs.SightView.{sight_view};
ghost use Rattle.wesl_link_split.specs.Split as split;
ghost use Rattle.wesl_link_tables.specs.Numbering.{AreRelated, IsNumberedImport, AreNumberedImports, IsNumberedScope, IsNumbered, Grows, NameAt, PathAt};
ghost use Rattle.wesl_link_tables.specs.NumbersView.{numbering};
ghost use Rattle.wesl_link_tables.specs.Parts.{declared_as, settled_in, table_made, with_alive, IsDeclared, IsKeptBy, IsNumberedUnit, IsScoped, IsUndeclared, IsUnnumbered};
ghost use Rattle.wesl_link_tables.specs.Reading.{AreNumbersOfNames, IsRead, IsNumberedBy, own_path, unit_in};
ghost use Rattle.wesl_link_tables.specs.Spelling.{imports_at, spelled_in, spelled_import, spelled_imports};
ghost use Rattle.wesl_link_tables.specs.Split.{alive_if, crowded_if, binders_by, declares_as, declared_from};
ghost use Rattle.wesl_link_tables.specs.Tables.{scope_of, uses, table_at};
ghost use Rattle.wesl_link_tables.specs.Walks.{HavePaths};

use crate::imports::imports;
use crate::marks::{Mark, Marked, mark_piece};
use crate::numbers::{Numbers, spelling};
use crate::reading::{Reading, add_ids, add_names};
use std::alloc::{AllocError, Global};
use wesl_cond_alive::{alive_of, flags_of_unit};
use wesl_cond_choices::alive::Alive;
use wesl_cond_choices::place::Place;
use wesl_link_split::binders::Binder;
use wesl_link_split::sight::Sight;
use wesl_link_split::split::Scope;
use wesl_link_symbols::ids::{NameId, PathId};
use wesl_link_symbols::symbols::Import;
use wesl_link_symbols::table::{Declaration, Table};
use wesl_scope_meanings::senses_of;
use wesl_tree::TranslationUnit;
use wesl_tree_names::{Ident, ModulePath, Names};

/// A symbol table, and of each global declaration what its identifiers are, in document order.
#[derive(Drop)]
pub struct Tabled {
    pub table: Table,
    pub marks: Vec<Vec<Mark>>,
}

/// The number of the name of an identifier, where the names have these numbers.
fn number_of(
    numbers: &mut Numbers,
    names: &Names,
    ids: &[NameId],
    ident: Ident,
) -> Result<NameId, AllocError>
    requires { AreRelated (NameAt (numbering numbers.old)) ids.now names.now }
    ensures numbered { IfOk result (λ n. NameAt (numbering numbers.new) n (name_in names.now ident.0)) }
    ensures grows { Grows (numbering numbers.old) (numbering numbers.new) }
{
    if ident.0 < ids.len() {
        Ok(ids[ident.0])
    } else {
        numbers.name(spelling(names, ident))
    }
}

/// An import with numbers in place of names, where the names have these numbers.
fn number_import(
    numbers: &mut Numbers,
    names: &Names,
    ids: &[NameId],
    import: &Import<PathId, Ident>,
) -> Result<Import<PathId, NameId>, AllocError>
    requires path { import.now.path.0 < length (numbering numbers.old).paths }
    requires ids { AreRelated (NameAt (numbering numbers.old)) ids.now names.now }
    ensures numbered { IfOk result (λ i. IsNumberedImport (numbering numbers.new) i (spelled_import (numbering numbers.old).paths names.now import.now)) }
    ensures grows { Grows (numbering numbers.old) (numbering numbers.new) }
{
    let bound = number_of(numbers, names, ids, import.bound)?;
    let item = number_of(numbers, names, ids, import.item)?;
    Ok(Import {
        bound,
        path: import.path,
        item,
        published: import.published,
        place: import.place,
        from: import.from,
        order: import.order,
    })
}

/// The import at an index.
fn import_at(imports: &[Import<PathId, Ident>], index: usize) -> &Import<PathId, Ident>
    requires { index < length imports.now }
    ensures { result.now ≡ get_or imports.now index result.now }
{
    &imports[index]
}

/// Adds the imports with numbers in place of names, where the names have these numbers.
fn add_imports(
    numbers: &mut Numbers,
    names: &Names,
    ids: &[NameId],
    imports: &[Import<PathId, Ident>],
    found: &mut Vec<Import<PathId, NameId>>,
) -> Result<(), AllocError>
    requires paths { HavePaths (numbering numbers.old).paths imports.now }
    requires ids { AreRelated (NameAt (numbering numbers.old)) ids.now names.now }
    requires empty { found.old.items ≡ [] }
    ensures numbered { OnOk result (AreNumberedImports (numbering numbers.new) found.new.items (spelled_imports (numbering numbers.old).paths names.now imports.now)) }
    ensures grows { Grows (numbering numbers.old) (numbering numbers.new) }
{
    found.reserve_exact(imports.len())?;
    for i in 0..imports.len() {
        let number = number_import(numbers, names, ids, import_at(imports, i))?;
        found.push(number)?;
    }
    Ok(())
}

/// Where the identifiers of a declaration end: where those of the next begin, and those of the last with the module's.
fn end_of(starts: &[usize], index: usize, whole: usize) -> usize
    requires { index < length starts.now }
    ensures { result ≡ get_or starts.now (suc index) whole }
{
    match starts.get(index + 1) {
        Some(start) => *start,
        None => whole,
    }
}

/// The declarations of a module, and the marks of their identifiers.
#[derive(Drop)]
struct Declared {
    declarations: Vec<Declaration>,
    marks: Vec<Vec<Mark>>,
}

impl Declared {
    /// Makes room for so many declarations.
    fn reserve(&mut self, room: usize) -> Result<(), AllocError>
        ensures declarations { self.new.declarations.items ≡ self.old.declarations.items }
        ensures marks { self.new.marks.items ≡ self.old.marks.items }
    {
        self.declarations.reserve_exact(room)?;
        self.marks.reserve_exact(room)?;
        Ok(())
    }

    /// Adds the declaration that binds this name, if it binds one, and is seen from there, with what its identifiers are.
    fn add(&mut self, name: Option<NameId>, place: Place, marked: Marked) -> Result<(), AllocError>
        ensures declarations { OnOk result (self.new.declarations.items ≡ self.old.declarations.items ++ declared_as name place marked ∷ []) }
        ensures marks { OnOk result (self.new.marks.items ≡ self.old.marks.items ++ marked.marks ∷ []) }
    {
        let Marked { marks, asked } = marked;
        let declaration = Declaration::new(name, place, asked.references, asked.unclear);
        self.declarations.push(declaration)?;
        self.marks.push(marks)?;
        Ok(())
    }
}

/// Adds the declarations that bind these names, if they bind one, with what their identifiers are.
fn add_declarations(
    alloc: Global,
    numbers: &mut Numbers,
    reading: &Reading<'_, '_>,
    names: &[Option<NameId>],
    declared: &mut Declared,
) -> Result<(), AllocError>
    requires read { IsRead reading.now }
    requires numbered { IsNumberedBy (numbering numbers.now) reading.now }
    requires named { AreNumbersOfNames (numbering numbers.now) names.now (declarations_in (unit_in reading.now)) }
    requires empty { IsUndeclared declared.old }
    ensures declared { OnOk result (IsDeclared (numbering numbers.new) (own_path reading.now) (unit_in reading.now) declared.new) }
    ensures grows { Grows (numbering numbers.old) (numbering numbers.new) }
{
    let senses = reading.senses;
    declared.reserve(names.len())?;
    for i in 0..names.len() {
        let end = end_of(&senses.starts, i, senses.all.len());
        let one = mark_piece(alloc, numbers, reading, senses.starts[i], end)?;
        let place = reading.scope.place_of(names[i], Place::Declaration(i));
        declared.add(names[i], place, one)?;
    }
    Ok(())
}

/// The numbers of a unit's imports and names, and of the name that each declaration binds, if it binds one.
#[derive(Drop)]
struct UnitNumbers {
    imports: Vec<Import<PathId, NameId>>,
    ids: Vec<NameId>,
    names: Vec<Option<NameId>>,
}

impl UnitNumbers {
    /// No numbers. They take no memory.
    fn new(alloc: Global) -> UnitNumbers
        ensures { IsUnnumbered result }
    {
        UnitNumbers {
            imports: Vec::new(alloc),
            ids: Vec::new(alloc),
            names: Vec::new(alloc),
        }
    }
}

/// Numbers a unit, which has these imports.
fn number_unit(
    numbers: &mut Numbers,
    unit: &TranslationUnit,
    imports: &[Import<PathId, Ident>],
    numbered: &mut UnitNumbers,
) -> Result<(), AllocError>
    requires paths { HavePaths (numbering numbers.old).paths imports.now }
    requires empty { IsUnnumbered numbered.old }
    ensures numbered { OnOk result (IsNumberedUnit (numbering numbers.new) (spelled_in (numbering numbers.old).paths unit.now imports.now) (unit_view unit.now) numbered.new) }
    ensures grows { Grows (numbering numbers.old) (numbering numbers.new) }
{
    add_ids(numbers, unit.names(), &mut numbered.ids)?;
    add_imports(
        numbers,
        unit.names(),
        &numbered.ids,
        imports,
        &mut numbered.imports,
    )?;
    add_names(
        numbers,
        unit.names(),
        unit.global_declarations(),
        &mut numbered.names,
    )
}

/// Adds the declaration with this number as a binder, if it binds a name.
fn add_own(
    binders: &mut Vec<Binder<PathId, NameId>>,
    own: PathId,
    index: usize,
    name: Option<NameId>,
) -> Result<(), AllocError>
    ensures { OnOk result (binders.new.items ≡ binders.old.items ++ declares_as own index name) }
{
    let Some(name) = name else {
        return Ok(());
    };
    binders.push(Binder {
        bound: name,
        path: own,
        item: name,
        declares: true,
        stands: Place::Declaration(index),
    })?;
    Ok(())
}

/// Adds the declarations that bind these names, if they bind one, as binders.
fn add_declared(
    binders: &mut Vec<Binder<PathId, NameId>>,
    own: PathId,
    names: &[Option<NameId>],
) -> Result<(), AllocError>
    requires { binders.old.items ≡ [] }
    ensures { OnOk result (binders.new.items ≡ declared_from own 0 names.now) }
{
    for i in 0..names.len() {
        add_own(binders, own, i, names[i])?;
    }
    Ok(())
}

/// Adds imports as binders.
fn add_imported(
    binders: &mut Vec<Binder<PathId, NameId>>,
    imports: &[Import<PathId, NameId>],
) -> Result<(), AllocError>
    ensures { OnOk result (binders.new.items ≡ binders.old.items ++ map split.binder_of imports.now) }
{
    for import in imports {
        binders.push(Binder {
            bound: import.bound,
            path: import.path,
            item: import.item,
            declares: false,
            stands: import.place,
        })?;
    }
    Ok(())
}

/// Adds the binders of the module with this path: its declarations, which bind these names, if they bind one, and its imports.
fn add_binders(
    binders: &mut Vec<Binder<PathId, NameId>>,
    own: PathId,
    names: &[Option<NameId>],
    imports: &[Import<PathId, NameId>],
) -> Result<(), AllocError>
    requires { binders.old.items ≡ [] }
    ensures { OnOk result (binders.new.items ≡ binders_by own names.now imports.now) }
{
    add_declared(binders, own, names)?;
    add_imported(binders, imports)
}

/// The binders of the module with this path.
fn binders_of(
    alloc: Global,
    own: PathId,
    names: &[Option<NameId>],
    imports: &[Import<PathId, NameId>],
) -> Result<Vec<Binder<PathId, NameId>>, AllocError>
    ensures { IfOk result (λ bs. bs.items ≡ binders_by own names.now imports.now) }
{
    let room = names.len().saturating_add(imports.len());
    let mut binders = Vec::with_capacity(alloc, room)?;
    add_binders(&mut binders, own, names, imports)?;
    Ok(binders)
}

/// What each choice of a unit's flags keeps of it, unless these are too many.
fn kept_of(alloc: Global, unit: &TranslationUnit) -> Result<Option<Alive>, AllocError>
    ensures { IfOk result (λ kept. IsKeptBy (spelled (unit_view unit.now)) kept) }
{
    let flags = flags_of_unit(alloc, unit)?;
    if flags.len() > 16 {
        return Ok(None);
    }
    Ok(Some(alive_of(alloc, unit, &flags)?))
}

/// What the names of a module stand for, and whether it has too many flags to tell which of several targets they have.
#[derive(Drop)]
struct Scoped {
    scope: Scope,
    is_crowded: bool,
}

/// What names stand for, where choices of flags keep this.
fn scoped_by(
    alloc: Global,
    sight: Sight,
    alive: Alive,
    is_crowded: bool,
) -> Result<Scoped, AllocError>
    ensures scope { IfOk result (λ s. scope_view s.scope ≡ with_alive (sight_view sight) alive) }
    ensures crowded { IfOk result (λ s. s.is_crowded ≡ is_crowded) }
{
    let scope = Scope::new(alloc, sight, alive)?;
    Ok(Scoped { scope, is_crowded })
}

/// What the names of a unit stand for, where each name has one target; where one has several, by what choices of flags keep.
fn with_choices(alloc: Global, sight: Sight, unit: &TranslationUnit) -> Result<Scoped, AllocError>
    ensures scope { IfOk result (λ s. scope_view s.scope ≡ with_alive (sight_view sight) (alive_if (split.has_split ids (sight_view sight).binders) (spelled (unit_view unit.now)))) }
    ensures crowded { IfOk result (λ s. s.is_crowded ≡ crowded_if (split.has_split ids (sight_view sight).binders) (spelled (unit_view unit.now))) }
{
    if !sight.has_split() {
        return scoped_by(alloc, sight, Alive::none(), false);
    }
    let kept = kept_of(alloc, unit)?;
    match kept {
        Some(alive) => scoped_by(alloc, sight, alive, false),
        None => scoped_by(alloc, sight, Alive::none(), true),
    }
}

/// What the names of a unit stand for that stands at the path with this number, and has these numbers.
fn scoped_of(
    alloc: Global,
    id: PathId,
    unit: &TranslationUnit,
    numbered: &UnitNumbers,
) -> Result<Scoped, AllocError>
    ensures { IfOk result (λ s. IsScoped id numbered.now (spelled (unit_view unit.now)) s) }
{
    let binders = binders_of(alloc, id, &numbered.names, &numbered.imports)?;
    let sight = Sight::new(alloc, id, binders)?;
    with_choices(alloc, sight, unit)
}

/// An import as the table of its module has it.
fn settled(
    alloc: Global,
    scope: &Scope,
    import: &Import<PathId, NameId>,
) -> Result<Import<PathId, NameId>, AllocError>
    ensures { IfOk result (λ i. i ≡ split.settled ids (scope_view scope.now) import.now) }
{
    if scope.has_split() {
        return scope.settled(alloc, import);
    }
    Ok(Import {
        bound: import.bound,
        path: import.path,
        item: import.item,
        published: import.published,
        place: Place::Always,
        from: Place::Always,
        order: 2,
    })
}

/// Adds imports as the table of their module has them.
fn add_settled(
    alloc: Global,
    scope: &Scope,
    imports: &[Import<PathId, NameId>],
    found: &mut Vec<Import<PathId, NameId>>,
) -> Result<(), AllocError>
    requires { found.old.items ≡ [] }
    ensures { OnOk result (found.new.items ≡ settled_in scope.now imports.now) }
{
    found.reserve_exact(imports.len())?;
    for import in imports {
        let one = settled(alloc, scope, import)?;
        found.push(one)?;
    }
    Ok(())
}

/// Marks the declarations of a unit that stands at the path with this number.
fn mark_unit(
    alloc: Global,
    numbers: &mut Numbers,
    path: &ModulePath,
    id: PathId,
    unit: &TranslationUnit,
    numbered: &UnitNumbers,
    scope: &Scope,
    declared: &mut Declared,
) -> Result<(), AllocError>
    requires asked { is_relative (path_view path.now) ≡ false }
    requires held { PathAt (numbering numbers.old) id (path_view path.now) }
    requires numbered { IsNumberedUnit (numbering numbers.old) (imports_at path.now unit.now) (unit_view unit.now) numbered.now }
    requires scope { IsNumberedScope (numbering numbers.old) (scope_view scope.now) (scope_of (path_view path.now) (spelled (unit_view unit.now))) }
    requires empty { IsUndeclared declared.old }
    ensures declared { OnOk result (IsDeclared (numbering numbers.new) (path_view path.now) (spelled (unit_view unit.now)) declared.new) }
    ensures grows { Grows (numbering numbers.old) (numbering numbers.new) }
{
    let senses = senses_of(alloc, unit)?;
    let reading = Reading {
        path,
        own: id,
        unit,
        senses: &senses,
        scope,
        ids: &numbered.ids,
    };
    add_declarations(alloc, numbers, &reading, &numbered.names, declared)
}

/// What a table is made of.
#[derive(Drop)]
struct Parts {
    imports: Vec<Import<PathId, NameId>>,
    declared: Declared,
}

impl Parts {
    /// No parts. They take no memory.
    fn new(alloc: Global) -> Parts
        ensures imports { result.imports.items ≡ [] }
        ensures declared { IsUndeclared result.declared }
    {
        Parts {
            imports: Vec::new(alloc),
            declared: Declared {
                declarations: Vec::new(alloc),
                marks: Vec::new(alloc),
            },
        }
    }

    /// Makes the parts of a unit that stands at the path with this number, has these numbers, and whose names stand for this. It
    /// holds nothing, so where memory is wanting nothing is let go.
    fn fill(
        &mut self,
        alloc: Global,
        numbers: &mut Numbers,
        id: PathId,
        path: &ModulePath,
        unit: &TranslationUnit,
        numbered: &UnitNumbers,
        scope: &Scope,
    ) -> Result<(), AllocError>
        requires asked { is_relative (path_view path.now) ≡ false }
        requires held { PathAt (numbering numbers.old) id (path_view path.now) }
        requires numbered { IsNumberedUnit (numbering numbers.old) (imports_at path.now unit.now) (unit_view unit.now) numbered.now }
        requires scope { IsNumberedScope (numbering numbers.old) (scope_view scope.now) (scope_of (path_view path.now) (spelled (unit_view unit.now))) }
        requires empty { self.old.imports.items ≡ [] }
        requires undeclared { IsUndeclared self.old.declared }
        ensures imports { OnOk result (AreNumberedImports (numbering numbers.new) self.new.imports.items (table_at (path_view path.now) (spelled (unit_view unit.now))).imports) }
        ensures declared { OnOk result (IsDeclared (numbering numbers.new) (path_view path.now) (spelled (unit_view unit.now)) self.new.declared) }
        ensures grows { Grows (numbering numbers.old) (numbering numbers.new) }
    {
        add_settled(alloc, scope, &numbered.imports, &mut self.imports)?;
        mark_unit(
            alloc,
            numbers,
            path,
            id,
            unit,
            numbered,
            scope,
            &mut self.declared,
        )
    }
}

/// The symbol table of the module with this path that has these parts, and the marks.
fn make_tabled(
    alloc: Global,
    id: PathId,
    parts: Parts,
    scoped: Scoped,
) -> Result<Tabled, AllocError>
    ensures table { IfOk result (λ t. t.table ≡ table_made id parts scoped) }
    ensures marks { IfOk result (λ t. t.marks ≡ parts.declared.marks) }
{
    let Parts { imports, declared } = parts;
    let Declared {
        declarations,
        marks,
    } = declared;
    let Scoped { scope, is_crowded } = scoped;
    let table = Table::new(
        alloc,
        id,
        imports,
        declarations,
        scope.into_alive(),
        is_crowded,
    )?;
    Ok(Tabled { table, marks })
}

/// The symbol table of a unit that stands at a path, which has this number, by the numbers of the unit, which are these.
fn tabled_of(
    alloc: Global,
    numbers: &mut Numbers,
    id: PathId,
    path: &ModulePath,
    unit: &TranslationUnit,
    numbered: &UnitNumbers,
) -> Result<Tabled, AllocError>
    requires asked { is_relative (path_view path.now) ≡ false }
    requires held { PathAt (numbering numbers.old) id (path_view path.now) }
    requires numbered { IsNumberedUnit (numbering numbers.old) (imports_at path.now unit.now) (unit_view unit.now) numbered.now }
    ensures numbered { IfOk result (λ t. IsNumbered (numbering numbers.new) t.table (table_at (path_view path.now) (spelled (unit_view unit.now)))) }
    ensures marked { IfOk result (λ t. AreMarked (numbering numbers.new) t.marks.items (uses (path_view path.now) (spelled (unit_view unit.now)))) }
    ensures path { IfOk result (λ t. t.table.path ≡ id) }
    ensures grows { Grows (numbering numbers.old) (numbering numbers.new) }
{
    let scoped = scoped_of(alloc, id, unit, numbered)?;
    let mut parts = Parts::new(alloc);
    parts.fill(alloc, numbers, id, path, unit, numbered, &scoped.scope)?;
    make_tabled(alloc, id, parts, scoped)
}

/// The symbol table of a unit that stands at a path, which has this number, with numbers in place of names and paths;
/// and of each global declaration what its identifiers are (WESL, "Imports"; WGSL, "Declaration and Scope"). Refused for
/// want of memory alone.
pub fn table_of(
    alloc: Global,
    numbers: &mut Numbers,
    id: PathId,
    path: &ModulePath,
    unit: &TranslationUnit,
) -> Result<Tabled, AllocError>
    requires asked { is_relative (path_view path.now) ≡ false }
    requires held { PathAt (numbering numbers.old) id (path_view path.now) }
    ensures numbered { IfOk result (λ t. IsNumbered (numbering numbers.new) t.table (table_at (path_view path.now) (spelled (unit_view unit.now)))) }
    ensures marked { IfOk result (λ t. AreMarked (numbering numbers.new) t.marks.items (uses (path_view path.now) (spelled (unit_view unit.now)))) }
    ensures path { IfOk result (λ t. t.table.path ≡ id) }
    ensures grows { Grows (numbering numbers.old) (numbering numbers.new) }
{
    let imports = imports(alloc, &mut numbers.paths, id, unit.imports())?;
    let mut numbered = UnitNumbers::new(alloc);
    number_unit(numbers, unit, &imports, &mut numbered)?;
    tabled_of(alloc, numbers, id, path, unit, &numbered)
}
