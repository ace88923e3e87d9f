//! Imports of a module in a row in which those that are alike follow on each other, so that one of them is gone over for all,
//! and those that are not seen are passed.
ghost use Rattle.std.specs.Prelude.{◌≡◌, ◌+◌, ◌<◌, false, length, IfOk};
ghost use Rattle.std.specs.List.{list_any};
ghost use Rattle.wesl_link_symbols.specs.Row.{Passes};
ghost use Rattle.wesl_link_symbols.specs.RowView.{IsCovered};
ghost use Rattle.wesl_link_targets.specs.Sought.{has_target, is_found, is_sought, sees};

use std::alloc::{AllocError, Global};
use wesl_cond_choices::alive::Alive;
use wesl_cond_choices::place::Place;
use wesl_link_symbols::ids::{NameId, PathId};
use wesl_link_symbols::row::{Likeness, Row};
use wesl_link_symbols::symbols::Import;

/// What is looked for among the imports of a name.
#[derive(Drop)]
pub enum Sought {
    /// One that is published.
    Published,
    /// One with another target than the item of the module at a path; where so asked, one that is not published.
    Other(bool, PathId, NameId),
}

/// Whether an import has this target.
fn has_this_target(path: PathId, item: NameId, import: &Import<PathId, NameId>) -> bool
    ensures { result ≡ has_target path item import.now }
{
    path == import.path && item == import.item
}

/// Whether what stands at a place is seen from another.
fn is_seen(alive: &Alive, from: Place, place: Place) -> bool
    ensures { result ≡ sees alive.now from place }
{
    place == Place::Always || alive.together(from, place)
}

impl Sought {
    /// Whether it is this import that is looked for.
    pub fn is_met_by(&self, import: &Import<PathId, NameId>) -> bool
        ensures { result ≡ is_sought self.now import.now }
    {
        match self {
            Sought::Published => import.published,
            Sought::Other(is_hidden, path, item) => {
                !(*is_hidden && import.published) && !has_this_target(*path, *item, import)
            }
        }
    }
}

/// Whether an import has the name, is looked for, and is seen from a place.
fn is_hit(
    alive: &Alive,
    name: NameId,
    from: Place,
    sought: &Sought,
    import: &Import<PathId, NameId>,
) -> bool
    ensures { result ≡ is_found alive.now name from sought.now import.now }
{
    name == import.bound && (sought.is_met_by(import) && is_seen(alive, from, import.place))
}

/// Imports of a module, those of a name by their targets.
pub struct Targets {
    row: Row,
}

// By hand, so that it is proved once: a derived one is proved in each crate that lets go of a value.
impl Drop for Targets {
    fn drop(self) {
        let Targets { row: _ } = self;
    }
}

impl Targets {
    ghost use Rattle.wesl_link_targets.specs.TargetsView.{AreTargetsOf};

    /// These imports, over what some choice of flags keeps together.
    ///
    /// # Errors
    /// Want of memory.
    pub fn of(
        alloc: Global,
        alive: &Alive,
        imports: &[Import<PathId, NameId>],
    ) -> Result<Targets, AllocError>
        ensures { IfOk result (λ t. AreTargetsOf alive.now imports.now t) }
    {
        let row = Row::of(alloc, alive, imports)?;
        Ok(Targets { row })
    }

    /// The index behind the import at this index, and behind those that follow on it and are not looked for either.
    fn behind(&self, index: usize, sought: &Sought) -> usize
        requires { index < length self.now.row.imports.items }
        ensures ahead { index < result }
        ensures none { Passes (λ i. is_sought sought.now i ≡ false) self.now.row.imports.items (index + 1) result }
    {
        if sought.is_met_by(&self.row.import_at(index)) {
            return index + 1;
        }
        self.row.end_of(Likeness::Alike, index)
    }

    /// Whether one of the imports of a name that are seen from a place is looked for.
    pub fn has(&self, alive: &Alive, name: NameId, from: Place, sought: &Sought) -> bool
        requires { IsCovered alive.now self.now.row }
        ensures { result ≡ list_any (is_found alive.now name from sought.now) self.now.row.imports.items }
    {
        let extent = self.row.extent(name);
        let mut i = self.row.next(alive, from, extent.start);
        'row: while i < extent.end {
            if is_hit(alive, name, from, sought, &self.row.import_at(i)) {
                return true;
            }
            let behind = self.behind(i, sought);
            i = self.row.next(alive, from, behind);
        }
        false
    }
}
