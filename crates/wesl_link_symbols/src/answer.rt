//! What a module answers to a look-up.
ghost use Rattle.std.specs.Prelude.{◌≡◌, ◌⊎◌, ◌↔◌, ◌+◌, ◌<◌, ◌≤◌, length, Contains, Some, IsTrue, IsFalse, IfSome, IfNone};
ghost use Rattle.wesl_link_symbols.specs.declared.ids.PathId.{PathId};
ghost use Rattle.wesl_tree_base.specs.declared.ids.NameId.{NameId};
ghost use Rattle.wesl_link_symbols.specs.Names.{Imports, SameTarget, IsOwn, Shows, DeclaresTo, IsOpenTo, IsHiddenFrom, IsAskedTo, Answers, asked_by};
ghost use Rattle.wesl_link_symbols.specs.Row.{Passes};
ghost use Rattle.wesl_link_symbols.specs.RowView.{IsCovered, IsDeclaredRow, IsRowOf};
ghost use Rattle.wesl_link_symbols.specs.Searching.{IsShownAndSeen, IsRival, IsNoRival, IsNoHigher, IsSought, IsPassed, IsPassedOf, IsTornTo, NeedsSight, PassesAbove, SeesDeclaration, SeesNoOther, SeesOther};
ghost use Rattle.wesl_link_symbols.specs.Tables as tables;

use crate::ids::{NameId, PathId};
use crate::row::{Likeness, Row};
use crate::symbols::{Answer, Import, LookUp};
use crate::table::Table;
use wesl_cond_choices::place::Place;

/// Whether the imports are of one item.
pub fn same_target(first: &Import<PathId, NameId>, second: &Import<PathId, NameId>) -> bool
    ensures yes { IsTrue result → SameTarget first.now second.now }
    ensures no { IsFalse result → SameTarget first.now second.now → ⊥ }
{
    first.path == second.path && first.item == second.item
}

/// Whether the import aims at the own declaration, in the module at that path, of the name that it binds.
pub fn is_own(path: PathId, import: &Import<PathId, NameId>) -> bool
    ensures yes { IsTrue result → IsOwn path import.now }
    ensures no { IsFalse result → IsOwn path import.now → ⊥ }
{
    import.path == path && import.item == import.bound
}

/// Whether the second import makes the name stand for two things beside the first, which is asked.
fn is_rival(first: &Import<PathId, NameId>, second: &Import<PathId, NameId>) -> bool
    ensures yes { IsTrue result → IsRival first.now second.now }
    ensures no { IsFalse result → IsNoRival first.now second.now }
{
    !same_target(first, second) || (second.order <= first.order && first.from != second.from)
}

/// What the imports of a look-up's name are searched for.
#[derive(Clone, Copy, Drop)]
enum Sought {
    /// One that is not shown to the asker.
    Hidden,
    /// One that is shown and seen, and aims elsewhere than at the module's own declaration.
    Foreign,
    /// One that is shown and seen, and makes the name stand for two things beside this one, which is asked.
    Rival(Import<PathId, NameId>),
    /// One that is shown and seen.
    Open,
    /// One that is shown and seen, and has another target than this one.
    Other(Import<PathId, NameId>),
    /// One that is shown and seen, and of a lower order than this one.
    Lower(Import<PathId, NameId>),
}

impl Table {
    /// What an import asks for.
    fn asked_by(&self, import: &Import<PathId, NameId>) -> LookUp<PathId, NameId>
        ensures { result ≡ asked_by self.now import.now }
    {
        LookUp {
            asker: Some(self.path()),
            path: import.path,
            name: import.item,
            from: import.from,
        }
    }

    /// Whether a look-up sees a declaration of its name, where all of them are gone over.
    fn declares_among_all(&self, look_up: LookUp<PathId, NameId>) -> bool
        ensures { IsTrue result ↔ DeclaresTo self.now look_up }
    {
        let mut at = self.latest_of(Some(look_up.name));
        'declarations: while let Some(index) = at {
            if self.sees(look_up.from, self.declarations()[index].place()) {
                return true;
            }
            at = self.earlier_of(index, Some(look_up.name));
        }
        false
    }

    /// Whether an import is shown to who asks: its own module sees all, another the published ones.
    fn shows(&self, look_up: LookUp<PathId, NameId>, import: &Import<PathId, NameId>) -> bool
        ensures { IsTrue result ↔ Shows look_up.asker self.now.path import.now }
    {
        import.published || look_up.asker == Some(self.path())
    }

    /// Whether an import is shown to a look-up, and seen from there.
    fn shows_and_sees(
        &self,
        look_up: LookUp<PathId, NameId>,
        import: &Import<PathId, NameId>,
    ) -> bool
        ensures { IsTrue result ↔ IsShownAndSeen self.now look_up import.now }
    {
        self.shows(look_up, import) && self.sees(look_up.from, import.place)
    }

    /// Whether an import is one that is searched for.
    fn is_sought(
        &self,
        look_up: LookUp<PathId, NameId>,
        sought: Sought,
        import: &Import<PathId, NameId>,
    ) -> bool
        ensures yes { IsTrue result → IsSought self.now look_up sought import.now }
        ensures no { IsFalse result → IsPassed self.now look_up sought import.now }
    {
        match sought {
            Sought::Hidden => !self.shows(look_up, import),
            Sought::Foreign => {
                self.shows_and_sees(look_up, import) && !is_own(self.path(), import)
            }
            Sought::Rival(asked) => {
                self.shows_and_sees(look_up, import) && is_rival(&asked, import)
            }
            Sought::Open => self.shows_and_sees(look_up, import),
            Sought::Other(first) => {
                self.shows_and_sees(look_up, import) && !same_target(&first, import)
            }
            Sought::Lower(first) => {
                self.shows_and_sees(look_up, import) && import.order < first.order
            }
        }
    }

    /// Whether an import of a look-up's name is one that is searched for, where all of them are gone over.
    fn has_among_all(&self, look_up: LookUp<PathId, NameId>, sought: Sought) -> bool
        ensures yes { IsTrue result → (i : tables.Import PathId NameId) × Imports self.now look_up.name i × IsSought self.now look_up sought i }
        ensures no { IsFalse result → (i : tables.Import PathId NameId) → Imports self.now look_up.name i → IsPassed self.now look_up sought i }
    {
        let mut at = self.latest_import_of(look_up.name);
        'imports: while let Some(index) = at {
            if self.is_sought(look_up, sought, &self.imports()[index]) {
                return true;
            }
            at = self.earlier_import_of(index, look_up.name);
        }
        false
    }

    /// An import in place of the one that was the lowest so far, where it is shown and seen and its order is lower.
    fn lower(
        &self,
        look_up: LookUp<PathId, NameId>,
        lowest: Option<Import<PathId, NameId>>,
        import: &Import<PathId, NameId>,
    ) -> Option<Import<PathId, NameId>>
        ensures one { IfSome result (λ i. (lowest ≡ Some i) ⊎ ((i ≡ import.now) × IsShownAndSeen self.now look_up i)) }
        ensures below { (i : tables.Import PathId NameId) → lowest ≡ Some i → IsNoHigher result i }
        ensures here { IsShownAndSeen self.now look_up import.now → IsNoHigher result import.now }
    {
        if !self.shows_and_sees(look_up, import) {
            return lowest;
        }
        match lowest {
            Some(known) if known.order <= import.order => Some(known),
            _ => Some(*import),
        }
    }

    /// An import that a look-up asks: one of the lowest order among those that it may follow, where all of them are gone over.
    fn asked_among_all(&self, look_up: LookUp<PathId, NameId>) -> Option<Import<PathId, NameId>>
        ensures asked { IfSome result (λ i. IsAskedTo self.now look_up i) }
        ensures none { IfNone result ((i : tables.Import PathId NameId) → IsOpenTo self.now look_up i → ⊥) }
    {
        let mut lowest = None;
        let mut at = self.latest_import_of(look_up.name);
        'imports: while let Some(index) = at {
            lowest = self.lower(look_up, lowest, &self.imports()[index]);
            at = self.earlier_import_of(index, look_up.name);
        }
        lowest
    }

    // ---- by the imports in a row

    /// Whether with an import all are passed that bind its name, have its target and are of its order or of a higher one.
    fn passes_above(&self, sought: Sought, import: &Import<PathId, NameId>) -> bool
        ensures { IsTrue result → PassesAbove self.now sought import.now }
    {
        match sought {
            Sought::Hidden => false,
            Sought::Open => false,
            Sought::Foreign => is_own(self.path(), import),
            Sought::Rival(first) => same_target(&first, import) && first.order < import.order,
            Sought::Other(first) => same_target(&first, import),
            Sought::Lower(first) => first.order <= import.order,
        }
    }

    /// The index behind the imports that are passed with the one at this index, which is passed.
    fn behind(
        &self,
        row: &Row,
        look_up: LookUp<PathId, NameId>,
        sought: Sought,
        index: usize,
    ) -> usize
        requires within { index < length row.now.imports.items }
        requires passed { Passes (IsPassedOf self.now look_up sought) row.now.imports.items index (index + 1) }
        ensures ahead { index < result }
        ensures passed { Passes (IsPassedOf self.now look_up sought) row.now.imports.items index result }
    {
        let import = row.import_at(index);
        if self.passes_above(sought, &import) {
            return row.end_of(Likeness::Above, index);
        }
        if self.sees(look_up.from, import.place) {
            return row.end_of(Likeness::Alike, index);
        }
        index + 1
    }

    /// Whether an import binds a look-up's name and is searched for.
    fn is_found(
        &self,
        look_up: LookUp<PathId, NameId>,
        sought: Sought,
        import: &Import<PathId, NameId>,
    ) -> bool
        ensures yes { IsTrue result → (import.now.bound ≡ look_up.name) × IsSought self.now look_up sought import.now }
        ensures no { IsFalse result → IsPassedOf self.now look_up sought import.now }
    {
        import.bound == look_up.name && self.is_sought(look_up, sought, import)
    }

    /// An import of a look-up's name in a row that is searched for.
    fn find_in(
        &self,
        row: &Row,
        look_up: LookUp<PathId, NameId>,
        sought: Sought,
    ) -> Option<Import<PathId, NameId>>
        requires row { IsCovered self.now.alive row.now }
        requires sight { NeedsSight sought }
        ensures found { IfSome result (λ i. Contains row.now.imports.items i × (i.bound ≡ look_up.name) × IsSought self.now look_up sought i) }
        ensures none { IfNone result ((i : tables.Import PathId NameId) → Contains row.now.imports.items i → IsPassedOf self.now look_up sought i) }
    {
        let extent = row.extent(look_up.name);
        let mut i = self.next_in(row, look_up.from, extent.start);
        'imports: while i < extent.end {
            let import = row.import_at(i);
            if self.is_found(look_up, sought, &import) {
                return Some(import);
            }
            let behind = self.behind(row, look_up, sought, i);
            i = self.next_in(row, look_up.from, behind);
        }
        None
    }

    /// An import of a look-up's name that is searched for, by the module's imports in a row.
    fn find_import(
        &self,
        row: &Row,
        look_up: LookUp<PathId, NameId>,
        sought: Sought,
    ) -> Option<Import<PathId, NameId>>
        requires row { IsRowOf self.now.alive self.now.imports row.now }
        requires sight { NeedsSight sought }
        ensures found { IfSome result (λ i. Imports self.now look_up.name i × IsSought self.now look_up sought i) }
        ensures none { IfNone result ((i : tables.Import PathId NameId) → Imports self.now look_up.name i → IsPassed self.now look_up sought i) }
    {
        self.find_in(row, look_up, sought)
    }

    /// Of the imports of a look-up's name that it may follow one of the lowest order, by one that it may follow.
    fn lowest_in(
        &self,
        row: &Row,
        look_up: LookUp<PathId, NameId>,
        first: Import<PathId, NameId>,
    ) -> Import<PathId, NameId>
        requires row { IsRowOf self.now.alive self.now.imports row.now }
        requires followed { IsOpenTo self.now look_up first }
        ensures { IsAskedTo self.now look_up result }
    {
        let mut lowest = first;
        'imports: while let Some(lower) = self.find_import(row, look_up, Sought::Lower(lowest)) {
            lowest = lower;
        }
        lowest
    }

    /// An import that a look-up asks, by its imports in a row.
    fn asked_in(&self, row: &Row, look_up: LookUp<PathId, NameId>) -> Option<Import<PathId, NameId>>
        requires { IsRowOf self.now.alive self.now.imports row.now }
        ensures asked { IfSome result (λ i. IsAskedTo self.now look_up i) }
        ensures none { IfNone result ((i : tables.Import PathId NameId) → IsOpenTo self.now look_up i → ⊥) }
    {
        match self.find_import(row, look_up, Sought::Open) {
            Some(first) => Some(self.lowest_in(row, look_up, first)),
            None => None,
        }
    }

    /// Whether a look-up may follow two imports that have different targets, by its imports in a row.
    fn is_torn_in(&self, row: &Row, look_up: LookUp<PathId, NameId>) -> bool
        requires { IsRowOf self.now.alive self.now.imports row.now }
        ensures { IsTrue result → IsTornTo self.now look_up }
    {
        match self.find_import(row, look_up, Sought::Open) {
            Some(first) => self
                .find_import(row, look_up, Sought::Other(first))
                .is_some(),
            None => false,
        }
    }

    /// Whether a look-up sees a declaration of its name, by the module's declarations in a row.
    fn declares_in(&self, row: &Row, look_up: LookUp<PathId, NameId>) -> bool
        requires { IsDeclaredRow self.now.alive self.now.path self.now.declarations row.now }
        ensures { IsTrue result ↔ DeclaresTo self.now look_up }
    {
        self.find_in(row, look_up, Sought::Open).is_some()
    }

    // ---- by the rows, where there are some

    /// Whether a look-up sees a declaration of its name.
    fn declares_to(&self, look_up: LookUp<PathId, NameId>) -> bool
        ensures { IsTrue result ↔ DeclaresTo self.now look_up }
    {
        match self.rows() {
            Some(rows) => self.declares_in(&rows.declared, look_up),
            None => self.declares_among_all(look_up),
        }
    }

    /// Whether an import of a look-up's name is one that is searched for, and that must be seen.
    fn has(&self, look_up: LookUp<PathId, NameId>, sought: Sought) -> bool
        requires { NeedsSight sought }
        ensures yes { IsTrue result → (i : tables.Import PathId NameId) × Imports self.now look_up.name i × IsSought self.now look_up sought i }
        ensures no { IsFalse result → (i : tables.Import PathId NameId) → Imports self.now look_up.name i → IsPassed self.now look_up sought i }
    {
        match self.rows() {
            Some(rows) => self.find_import(&rows.imported, look_up, sought).is_some(),
            None => self.has_among_all(look_up, sought),
        }
    }

    /// An import that a look-up asks: one of the lowest order among those that it may follow.
    fn asked(&self, look_up: LookUp<PathId, NameId>) -> Option<Import<PathId, NameId>>
        ensures asked { IfSome result (λ i. IsAskedTo self.now look_up i) }
        ensures none { IfNone result ((i : tables.Import PathId NameId) → IsOpenTo self.now look_up i → ⊥) }
    {
        match self.rows() {
            Some(rows) => self.asked_in(&rows.imported, look_up),
            None => self.asked_among_all(look_up),
        }
    }

    /// Whether a look-up may follow two imports that have different targets, as far as it is quickly told.
    fn is_torn(&self, look_up: LookUp<PathId, NameId>) -> bool
        ensures { IsTrue result → IsTornTo self.now look_up }
    {
        match self.rows() {
            Some(rows) => self.is_torn_in(&rows.imported, look_up),
            None => false,
        }
    }

    /// Whether an import of a look-up's name is not shown to who asks.
    fn hides(&self, look_up: LookUp<PathId, NameId>) -> bool
        ensures yes { IsTrue result → (i : tables.Import PathId NameId) × IsHiddenFrom self.now look_up i }
        ensures no { IsFalse result → (i : tables.Import PathId NameId) → Imports self.now look_up.name i → Shows look_up.asker self.now.path i }
    {
        look_up.asker != Some(self.path()) && self.has_among_all(look_up, Sought::Hidden)
    }

    /// Whether a declaration of a name is seen from a place.
    pub fn sees_declaration(&self, name: NameId, from: Place) -> bool
        ensures yes { IsTrue result → SeesDeclaration self.now name from }
        ensures no { IsFalse result → SeesDeclaration self.now name from → ⊥ }
    {
        self.declares_to(LookUp {
            asker: None,
            path: self.path(),
            name,
            from,
        })
    }

    /// Whether an import of the name that this one binds is seen from where this one stands, and has another target.
    pub fn sees_other(&self, import: &Import<PathId, NameId>) -> bool
        ensures yes { IsTrue result → SeesOther self.now import.now }
        ensures no { IsFalse result → SeesNoOther self.now import.now }
    {
        let look_up = LookUp {
            asker: Some(self.path()),
            path: self.path(),
            name: import.bound,
            from: import.place,
        };
        self.has(look_up, Sought::Other(*import))
    }

    /// The module's answer to a look-up (WESL, "Imports", "Visibility" and "ConditionalTranslation").
    pub fn answer(&self, look_up: LookUp<PathId, NameId>) -> Answer<PathId, NameId>
        ensures { Answers self.now look_up result }
    {
        if self.declares_to(look_up) {
            if self.has(look_up, Sought::Foreign) {
                return Answer::Ambiguous;
            }
            return Answer::Declared;
        }
        if self.is_torn(look_up) {
            return Answer::Ambiguous;
        }
        match self.asked(look_up) {
            Some(import) => {
                if self.has(look_up, Sought::Rival(import)) {
                    return Answer::Ambiguous;
                }
                Answer::Next(self.asked_by(&import))
            }
            None => {
                if self.hides(look_up) {
                    return Answer::Private;
                }
                Answer::Missing
            }
        }
    }
}
