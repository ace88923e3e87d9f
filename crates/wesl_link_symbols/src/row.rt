//! Imports in a row, in which those of a name follow on each other, and among these those that aim at one thing, so that of
//! those of a name only a few are gone over.
ghost use Rattle.std.specs.Prelude.{◌≡◌, ◌+◌, ◌^◌, ◌<◌, ◌≤◌, [], length, map, slice_get, IsTrue, IfOk, OnOk, Some};
ghost use Rattle.std.specs.List.Sorted.{IsPermutation};
ghost use Rattle.wesl_link_symbols.specs.declared.row.Likeness.TheVariants.{Above, Alike};
ghost use Rattle.wesl_cond_covers.specs.CoversView.{AreCoversOf};
ghost use Rattle.wesl_link_symbols.specs.Row.{AreExtents, AreRunsFrom, HasExtent, HaveOneTarget, IsLike, IsRun, IsWidened, Passes};

use crate::ids::{NameId, PathId};
use crate::keyed;
use crate::symbols::Import;
use std::alloc::{AllocError, Global};
use std::collections::HashMap;
use wesl_cond_choices::alive::Alive;
use wesl_cond_choices::place::Place;
use wesl_cond_covers::covers::Covers;

/// Which imports that follow on one are passed with it.
#[derive(Clone, Copy, Drop)]
pub enum Likeness {
    /// Those that differ from it by where they stand alone.
    Alike,
    /// Those that bind its name, have its target, and are of its order or of a higher one.
    Above,
}

/// Where the imports of a name begin in a row, and the index behind them.
#[derive(Clone, Copy, Drop)]
pub struct Extent {
    pub start: usize,
    pub end: usize,
}

/// The kind of a place, and its number.
fn place_key(place: Place) -> (usize, usize) {
    match place {
        Place::Always => (0, 0),
        Place::Import(index) => (1, index),
        Place::Declaration(index) => (2, index),
        Place::Name(index) => (3, index),
    }
}

/// By what imports are sorted: by name, target, order, where they ask from, and whether other modules see them. What is found
/// among them does not hang on it, but how many are gone over.
fn sort_key(import: &Import<PathId, NameId>) -> (usize, usize, usize, usize, (usize, usize), bool) {
    (
        import.bound.0,
        import.path.0,
        import.item.0,
        import.order,
        place_key(import.from),
        import.published,
    )
}

/// The imports, sorted.
fn sorted(
    alloc: Global,
    imports: &[Import<PathId, NameId>],
) -> Result<Vec<Import<PathId, NameId>>, AllocError>
    ensures { IfOk result (λ v. IsPermutation imports.now v.items) }
{
    let mut row = imports.to_vec(alloc)?;
    row.sort_unstable_by_key(|import| sort_key(import));
    Ok(row)
}

/// Adds where each import stands.
fn add_places(places: &mut Vec<Place>, imports: &[Import<PathId, NameId>]) -> Result<(), AllocError>
    requires { places.old.items ≡ [] }
    ensures { OnOk result (places.new.items ≡ map (λ i. i.place) imports.now) }
{
    for import in imports {
        places.push(import.place)?;
    }
    Ok(())
}

/// The unions of the choices that keep the imports.
fn covers_of(
    alloc: Global,
    alive: &Alive,
    imports: &[Import<PathId, NameId>],
) -> Result<Covers, AllocError>
    ensures { IfOk result (λ c. AreCoversOf alive.now (map (λ i. i.place) imports.now) c) }
{
    let mut places = Vec::new(alloc);
    add_places(&mut places, imports)?;
    Covers::of(alloc, alive, &places)
}

/// Whether both bind one name and have one target.
fn is_of_one_target(first: &Import<PathId, NameId>, second: &Import<PathId, NameId>) -> bool
    ensures { IsTrue result → HaveOneTarget first.now second.now }
{
    first.bound == second.bound && first.path == second.path && first.item == second.item
}

/// Whether the second is like the first.
fn is_like(
    likeness: Likeness,
    first: &Import<PathId, NameId>,
    second: &Import<PathId, NameId>,
) -> bool
    ensures { IsTrue result → IsLike likeness first.now second.now }
{
    match likeness {
        Likeness::Alike => {
            is_of_one_target(first, second)
                && first.published == second.published
                && first.from == second.from
                && first.order == second.order
        }
        Likeness::Above => is_of_one_target(first, second) && first.order <= second.order,
    }
}

/// The index behind the imports that follow on the one at this index and are like it, where those behind it have theirs.
fn run_end(
    likeness: Likeness,
    imports: &[Import<PathId, NameId>],
    ends: &[usize],
    index: usize,
) -> usize
    requires within { index < length imports.now }
    requires behind { AreRunsFrom likeness imports.now (index + 1) ends.now }
    ensures { IsRun likeness imports.now index result }
{
    let next = index + 1;
    if next < imports.len() && is_like(likeness, &imports[index], &imports[next]) {
        return ends[next];
    }
    next
}

/// Puts at the index of each import the index behind those that follow on it and are like it.
fn fill_ends(likeness: Likeness, imports: &[Import<PathId, NameId>], ends: &mut [usize])
    requires { length ends.old ≡ length imports.now }
    ensures { AreRunsFrom likeness imports.now 0 ends.new }
{
    let mut i = imports.len();
    'imports: while i > 0 {
        i -= 1;
        ends[i] = run_end(likeness, imports, ends, i);
    }
}

/// Of each import the index behind those that follow on it and are like it.
fn run_ends(
    alloc: Global,
    likeness: Likeness,
    imports: &[Import<PathId, NameId>],
) -> Result<Vec<usize>, AllocError>
    ensures { IfOk result (λ v. AreRunsFrom likeness imports.now 0 v.items) }
{
    let mut ends = vec![in alloc; 0; imports.len()]?;
    fill_ends(likeness, imports, &mut ends);
    Ok(ends)
}

/// The index behind the run of the import at this index.
fn end_at(
    likeness: Likeness,
    imports: &[Import<PathId, NameId>],
    ends: &[usize],
    index: usize,
) -> usize
    requires within { index < length imports.now }
    requires ends { AreRunsFrom likeness imports.now 0 ends.now }
    ensures { IsRun likeness imports.now index result }
{
    let _ = likeness;
    let _ = imports;
    ends[index]
}

/// The extent that reaches over the import at this index too.
fn widened(extent: Option<Extent>, index: usize) -> Extent
    requires { index < 2 ^ 63 }
    ensures { IsWidened extent index result }
{
    let end = index + 1;
    match extent {
        Some(Extent { start, end: _ }) => Extent { start, end },
        None => Extent { start: index, end },
    }
}

/// Adds of each name where its imports stand. It holds nothing, so where memory is wanting nothing is let go.
fn add_extents(
    extents: &mut HashMap<NameId, Extent>,
    imports: &[Import<PathId, NameId>],
) -> Result<(), AllocError>
    requires { extents.old.entries ≡ [] }
    ensures { OnOk result (AreExtents imports.now (length imports.now) extents.new.entries) }
{
    for (index, import) in imports.iter().enumerate() {
        let extent = widened(keyed::value_at(extents, import.bound), index);
        keyed::put(extents, import.bound, extent)?;
    }
    Ok(())
}

/// Imports of a module in a row.
pub struct Row {
    imports: Vec<Import<PathId, NameId>>,
    // Of each the index behind those that follow on it and are like it.
    alike: Vec<usize>,
    above: Vec<usize>,
    // By which those are passed that are not seen.
    covers: Covers,
    extents: HashMap<NameId, Extent>,
    pub ghost alike_are: { AreRunsFrom Alike imports.items 0 alike.items },
    pub ghost above_are: { AreRunsFrom Above imports.items 0 above.items },
    pub ghost extents_are: { AreExtents imports.items (length imports.items) extents.entries },
}

// By hand, so that it is proved once: a derived one is proved in each crate that lets go of a value.
impl Drop for Row {
    fn drop(self) {
        let Row {
            imports: _,
            alike: _,
            above: _,
            covers: _,
            extents: _,
        } = self;
    }
}

impl Row {
    ghost use Rattle.wesl_link_symbols.specs.RowView.{IsCovered, IsRowOf, IsUnseen};

    /// These imports in a row, over what some choice of flags keeps together.
    ///
    /// # Errors
    /// Want of memory.
    pub fn of(
        alloc: Global,
        alive: &Alive,
        imports: &[Import<PathId, NameId>],
    ) -> Result<Row, AllocError>
        ensures { IfOk result (λ r. IsRowOf alive.now imports.now r) }
    {
        let imports = sorted(alloc, imports)?;
        let covers = covers_of(alloc, alive, &imports)?;
        let alike = run_ends(alloc, Likeness::Alike, &imports)?;
        let above = run_ends(alloc, Likeness::Above, &imports)?;
        let mut extents = HashMap::new(alloc);
        add_extents(&mut extents, &imports)?;
        Ok(Row {
            imports,
            alike,
            above,
            covers,
            extents,
        })
    }

    /// The import at an index.
    pub fn import_at(&self, index: usize) -> Import<PathId, NameId>
        requires { index < length self.now.imports.items }
        ensures { slice_get self.now.imports.items index ≡ Some result }
    {
        self.imports[index]
    }

    /// Where the imports of a name stand.
    pub fn extent(&self, name: NameId) -> Extent
        ensures within { result.end ≤ length self.now.imports.items }
        ensures all { HasExtent self.now.imports.items name result }
    {
        match keyed::value_at(&self.extents, name) {
            Some(extent) => extent,
            None => Extent { start: 0, end: 0 },
        }
    }

    /// The index behind the imports that follow on the one at this index and are like it.
    pub fn end_of(&self, likeness: Likeness, index: usize) -> usize
        requires { index < length self.now.imports.items }
        ensures { IsRun likeness self.now.imports.items index result }
    {
        match likeness {
            Likeness::Alike => end_at(Likeness::Alike, &self.imports, &self.alike, index),
            Likeness::Above => end_at(Likeness::Above, &self.imports, &self.above, index),
        }
    }

    /// The index of the first import, from one index on, that is not passed: none of those before it is seen from `from`.
    pub fn next(&self, alive: &Alive, from: Place, index: usize) -> usize
        requires { IsCovered alive.now self.now }
        ensures ahead { index ≤ result }
        ensures unseen { Passes (IsUnseen alive.now from) self.now.imports.items index result }
    {
        self.covers.next(alive, from, index)
    }
}

/// The declarations of a module in a row, each as an import of the name that it binds, and its imports in a row.
pub struct Rows {
    pub(crate) declared: Row,
    pub(crate) imported: Row,
}

impl Drop for Rows {
    fn drop(self) {
        let Rows {
            declared: _,
            imported: _,
        } = self;
    }
}

impl Rows {
    ghost use Rattle.wesl_link_symbols.specs.RowView.{IsRowOf};

    /// The rows of these.
    ///
    /// # Errors
    /// Want of memory.
    pub(crate) fn of(
        alloc: Global,
        alive: &Alive,
        declared: &[Import<PathId, NameId>],
        imports: &[Import<PathId, NameId>],
    ) -> Result<Rows, AllocError>
        ensures declared { IfOk result (λ r. IsRowOf alive.now declared.now r.declared) }
        ensures imported { IfOk result (λ r. IsRowOf alive.now imports.now r.imported) }
    {
        let declared = Row::of(alloc, alive, declared)?;
        let imported = Row::of(alloc, alive, imports)?;
        Ok(Rows { declared, imported })
    }
}
