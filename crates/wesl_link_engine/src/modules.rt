//! The modules of a link, as a resolver hands them out.
ghost use Rattle.std.specs.Prelude.{◌≡◌, ℕ, false, [], IfOk, IfErr, IfSome, IfNone, OnErr, Contains};
ghost use Rattle.wesl_tree_names.specs.Path.{Text, Path, path_view, is_relative};
ghost use Rattle.wesl_tree_names.specs.declared.errors.ResolveError.{ResolveError};
ghost use Rattle.wesl_tree_syntax.specs.Unit.{UnitOf};
ghost use Rattle.wesl_link_engine.specs.Asking.{AnswersTheSame};
ghost use Rattle.wesl_link_reach.specs.Loader.{Explains};
ghost use Rattle.wesl_link_symbols.specs.Tables as tables;
ghost use Rattle.wesl_link_reach.specs.declared.loader.LoadError.TheVariants as load_error;
ghost use Rattle.wesl_link_tables.specs.Numbering.{Numbering, Grows, IsNumbered, PathAt};
ghost use Rattle.wesl_link_tables.specs.NumbersView.{numbering};
ghost use Rattle.wesl_link_engine.specs.Handing.{KeepsOf, MayBeAsked, StillHold, IsReadyPath, IsHandedTable, IsRefusedPath, KeepsUnit};
ghost use Rattle.wesl_link_engine.specs.declared.loaded.Held as held;

use crate::loaded::Held;
use crate::refusals::path_of;
use indexmap::IndexMap;
use std::alloc::Global;
use std::marker::{Brand, PhantomData};
use wesl_link_reach::loader::{LoadError, Loader};
use wesl_link_symbols::ids::PathId;
use wesl_link_symbols::table::Table;
use wesl_link_tables::numbers::Numbers;
use wesl_link_tables::table::{Tabled, table_of};
use wesl_resolve_base::Resolver;
use wesl_tree::TranslationUnit;
use wesl_tree_names::{ModulePath, ResolveError};

/// What a resolver hands out and refuses, held fixed for one link.
pub trait Source<R> {
    /// The unit, as it is spelled, is one that is handed out at the path.
    ghost hands: { Path → UnitOf Text → Type 0 };

    /// The path may be refused with the error.
    ghost refuses: { Path → ResolveError → Type 0 };

    /// The names and paths that have numbers before the first module is loaded.
    ghost first: { Numbering };

    /// The resolver may be what is left of the one that was given.
    ghost these: { R → Type 0 };

    /// The name of the loan of the resolver.
    ghost loan: { ℕ };
}

impl<R> Source<R> for Brand {
    ghost hands = { λ _ _. ⊥ };

    ghost refuses = { λ _ _. ⊥ };

    ghost first = { record { names = []; paths = [] } };

    ghost these = { λ _. ⊥ };

    ghost loan = { 0 };
}

/// What was loaded from a resolver, and the numbers of all paths and names in it.
#[derive(Drop)]
pub struct ModuleLoader<'r, 'n, R: Resolver, S: Source<R>> {
    pub resolver: &'r mut R,
    pub numbers: &'n mut Numbers,
    pub units: &'n mut IndexMap<PathId, Held>,
    pub source: PhantomData<S>,
}

/// The table of a unit that is handed out at a path, whose number is `id` and which has no unit: it is kept there.
fn keep(
    alloc: Global,
    numbers: &mut Numbers,
    units: &mut IndexMap<PathId, Held>,
    id: PathId,
    path: &ModulePath,
    unit: TranslationUnit,
) -> Result<Table, LoadError<ResolveError>>
    requires asked { is_relative (path_view path.now) ≡ false }
    requires held { PathAt (numbering numbers.old) id (path_view path.now) }
    ensures kept { IfOk result (λ t. KeepsUnit (numbering numbers.new) units.old.entries id (path_view path.now) unit t units.new.entries) }
    ensures unchanged { OnErr result (units.new.entries ≡ units.old.entries) }
    ensures refused { IfErr result (λ e. e ≡ load_error.Memory) }
    ensures grows { Grows (numbering numbers.old) (numbering numbers.new) }
{
    let Some(Tabled { table, marks }) = table_of(alloc, numbers, id, path, &unit).ok() else {
        return Err(LoadError::Memory);
    };
    match units.insert(id, Held { unit, marks }).ok() {
        Some(_) => Ok(table),
        None => Err(LoadError::Memory),
    }
}

/// The unit that is kept for a path.
fn unit_of<T>(units: &IndexMap<PathId, T>, id: PathId) -> Option<&T>
    ensures found { IfSome result (λ u. Contains units.now.entries (id, u.now)) }
    ensures none { IfNone result ((u : T) → Contains units.now.entries (id, u) → ⊥) }
{
    match units.get(&id) {
        Some(unit) => Some(unit),
        None => None,
    }
}

impl<R: Resolver, S: Source<R>> ModuleLoader<'_, '_, R, S> {
    /// Asks the resolver for the module at a path whose unit is not kept, and keeps it.
    fn fetch(
        &mut self,
        alloc: Global,
        id: PathId,
        path: &ModulePath,
    ) -> Result<Table, LoadError<ResolveError>>
        requires ready { R.ready self.old.resolver.now }
        requires asked { is_relative (path_view path.now) ≡ false }
        requires held { PathAt (numbering self.old.numbers.now) id (path_view path.now) }
        requires absent { (u : held.Held) → Contains self.old.units.now.entries (id, u) → ⊥ }
        requires keeps { KeepsOf R.Resolver self.old.resolver.now S.hands S.refuses S.first (numbering self.old.numbers.now) self.old.units.now.entries }
        ensures handed { IfOk result (IsHandedTable S.hands (numbering self.new.numbers.now) self.new.units.now.entries id) }
        ensures path { IfOk result (λ t. t.path ≡ id) }
        ensures numbered { IfOk result (λ t. (u : tables.Table Path Text) × IsNumbered (numbering self.new.numbers.now) t u) }
        ensures refused { IfErr result (Explains (IsRefusedPath S.refuses (numbering self.new.numbers.now) id)) }
        ensures grows { Grows (numbering self.old.numbers.now) (numbering self.new.numbers.now) }
        ensures units { StillHold self.old.units.now.entries self.new.units.now.entries }
        ensures keeps { KeepsOf R.Resolver self.new.resolver.now S.hands S.refuses S.first (numbering self.new.numbers.now) self.new.units.now.entries }
        ensures stays_ready { R.ready self.new.resolver.now }
        ensures same { AnswersTheSame R.Resolver self.old.resolver.now self.new.resolver.now }
        ensures loan { self.new.resolver.ghost_name ≡ self.old.resolver.ghost_name }
    {
        match self.resolver.resolve_module(alloc, path) {
            Ok(unit) => keep(alloc, self.numbers, self.units, id, path, unit),
            Err(ResolveError::Memory) => Err(LoadError::Memory),
            Err(error) => Err(LoadError::Refused(error)),
        }
    }
}

impl<R: Resolver, S: Source<R>> Loader<ResolveError> for ModuleLoader<'_, '_, R, S> {
    ghost hands = { λ s p t. IsHandedTable S.hands (numbering s.numbers.now) s.units.now.entries p t };

    ghost refuses = { λ s p e. IsRefusedPath S.refuses (numbering s.numbers.now) p e };

    ghost ready = { λ s p. IsReadyPath (numbering s.numbers.now) p
        × (MayBeAsked R.Resolver S.these S.loan s.resolver.now s.resolver.ghost_name
        × KeepsOf R.Resolver s.resolver.now S.hands S.refuses S.first (numbering s.numbers.now) s.units.now.entries) };

    fn load(&mut self, alloc: Global, path: PathId) -> Result<Table, LoadError<ResolveError>> {
        let Some(module) = path_of(alloc, self.numbers, path).ok() else {
            return Err(LoadError::Memory);
        };
        match unit_of(self.units, path) {
            Some(held) => match table_of(alloc, self.numbers, path, &module, &held.unit).ok() {
                Some(tabled) => Ok(tabled.table),
                None => Err(LoadError::Memory),
            },
            None => self.fetch(alloc, path, &module),
        }
    }
}
