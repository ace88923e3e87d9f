//! A world that is given: its modules, and what is linked in it.
ghost use Rattle.std.specs.Prelude.{◌≡◌, [], IfOk, IfErr, IfSome, IfNone, OnOk};
ghost use Rattle.wesl_link_symbols.specs.declared.symbols.Answer.TheVariants.{Next};
ghost use Rattle.wesl_link_symbols.specs.Names.{Answers, asked_for};
ghost use Rattle.wesl_link_symbols.specs.Tables as tables;
ghost use Rattle.wesl_link_reach.specs.World.{IsAt, Hops};
ghost use Rattle.wesl_link_reach.specs.Loading.{ArePlaced};
ghost use Rattle.wesl_link_flaws.specs.declared.told.End.TheVariants.{Flawed};
ghost use Rattle.wesl_link_flaws.specs.declared.told.Flaw.TheVariants.{Lacking};
ghost use Rattle.wesl_link_flaws.specs.Flaws.{EndsIn, Halts};
ghost use Rattle.wesl_link_flaws.specs.Searching.{IsReady, world_in};

use crate::told::{End, Flaw};
use std::alloc::AllocError;
use std::collections::HashMap;
use wesl_link_symbols::ids::{NameId, PathId};
use wesl_link_symbols::keyed;
use wesl_link_symbols::symbols::{Answer, LookUp, Reference, Symbol};
use wesl_link_symbols::table::Table;

/// The modules, where the module of each path stands among them, the root, the names of it that are kept, and whether all
/// that is declared is held.
#[derive(Drop)]
pub struct Given<'a> {
    pub tables: &'a [Table],
    pub places: HashMap<PathId, usize>,
    pub root: PathId,
    pub kept: &'a [NameId],
    pub is_eager: bool,
}

/// Puts down where the module of each path stands.
pub fn place_all(places: &mut HashMap<PathId, usize>, tables: &[Table]) -> Result<(), AllocError>
    requires { places.old.entries ≡ [] }
    ensures { OnOk result (ArePlaced tables.now places.new.entries) }
{
    for (index, table) in tables.iter().enumerate() {
        keyed::put(places, table.path(), index)?;
    }
    Ok(())
}

/// What a reference asks for.
pub fn ask(table: &Table, reference: &Reference<PathId, NameId>) -> LookUp<PathId, NameId>
    ensures { result ≡ asked_for table.now reference.now }
{
    LookUp {
        asker: Some(table.path()),
        path: reference.path,
        name: reference.name,
        from: reference.from,
    }
}

/// What a look-up that comes to a module a second time ends with, or one whose name the module lacks.
pub fn missing(look_up: LookUp<PathId, NameId>) -> End<PathId, NameId>
    ensures { result ≡ Flawed (Lacking look_up.name) look_up.path }
{
    End::Flawed(Flaw::Lacking(look_up.name), look_up.path)
}

/// Asks a module: an import of it leads on, or the look-up ends there.
fn hop_at(
    table: &Table,
    look_up: LookUp<PathId, NameId>,
) -> Result<LookUp<PathId, NameId>, End<PathId, NameId>>
    ensures on { IfOk result (λ n. Answers table.now look_up (Next n)) }
    ensures ended { IfErr result (EndsIn table.now look_up) }
{
    match table.answer(look_up) {
        Answer::Declared => Err(End::Found(Symbol {
            path: look_up.path,
            name: look_up.name,
        })),
        Answer::Next(next) => Ok(next),
        Answer::Missing => Err(missing(look_up)),
        Answer::Private => Err(End::Flawed(Flaw::Hidden(look_up.name), look_up.path)),
        Answer::Ambiguous => Err(End::Flawed(Flaw::Unsure(look_up.name), look_up.path)),
    }
}

impl<'a> Given<'a> {
    /// The module at a path, if there is one.
    pub fn table(&self, path: PathId) -> Option<&Table>
        requires { IsReady self.now }
        ensures found { IfSome result (λ t. IsAt (world_in self.now) path t.now) }
        ensures none { IfNone result ((t : tables.Table PathId NameId) → IsAt (world_in self.now) path t → ⊥) }
    {
        match keyed::value_at(&self.places, path) {
            Some(place) => Some(&self.tables[place]),
            None => None,
        }
    }

    /// Asks the module of a look-up: an import of it leads on, or the look-up ends there.
    pub fn hop(
        &self,
        look_up: LookUp<PathId, NameId>,
    ) -> Result<LookUp<PathId, NameId>, End<PathId, NameId>>
        requires { IsReady self.now }
        ensures on { IfOk result (λ n. Hops (world_in self.now) look_up n) }
        ensures ended { IfErr result (Halts (world_in self.now) look_up) }
    {
        match self.table(look_up.path) {
            Some(table) => hop_at(table, look_up),
            None => Err(End::Flawed(Flaw::NoModule, look_up.path)),
        }
    }
}
