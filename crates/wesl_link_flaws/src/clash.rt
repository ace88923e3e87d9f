//! The names of a module that clash.
ghost use Rattle.std.specs.Prelude.{◌≡◌, ◌⊎◌, IsTrue, IsFalse, OnOk, Contains};
ghost use Rattle.wesl_cond_choices.specs.declared.place.Place.TheVariants.{Always};
ghost use Rattle.wesl_link_symbols.specs.Names.{IsOwn};
ghost use Rattle.wesl_link_reach.specs.Asked.{Gains};
ghost use Rattle.wesl_link_reach.specs.Clashing.{IsAlone, IsLikeLast, MeetsDeclaration, MeetsNoDeclaration, MeetsOther, MeetsNoOther};
ghost use Rattle.wesl_link_reach.specs.Faults.{Clashes};
ghost use Rattle.wesl_link_flaws.specs.Keys.{AreKeys};
ghost use Rattle.wesl_link_flaws.specs.Flaws.{DiffersFromOther, IsClashOf, IsSeen, KeepsTold, TellsOnly};

use crate::asker::Asker;
use crate::keys::{self, Keys};
use crate::told::{Flaw, Told};
use std::alloc::AllocError;
use wesl_cond_choices::place::Place;
use wesl_link_symbols::answer::{is_own, same_target};
use wesl_link_symbols::ids::{NameId, PathId};
use wesl_link_symbols::symbols::Import;
use wesl_link_symbols::table::Table;

/// Whether an import is there for each choice of flags.
fn stands_always(import: &Import<PathId, NameId>) -> bool
    ensures yes { IsTrue result → import.now.place ≡ Always }
    ensures no { IsFalse result → import.now.place ≡ Always → ⊥ }
{
    import.place == Place::Always
}

/// Whether a declaration of the import's name is there at once with it. Where the import is there always, each of them is.
fn meets_declaration(table: &Table, import: &Import<PathId, NameId>) -> bool
    ensures yes { IsTrue result → MeetsDeclaration table.now import.now }
    ensures no { IsFalse result → MeetsNoDeclaration table.now import.now }
{
    if stands_always(import) {
        return table.declares(import.bound);
    }
    table.sees_declaration(import.bound, import.place)
}

/// Whether the last import of the name has another target than this one.
fn differs_from_last(table: &Table, import: &Import<PathId, NameId>) -> bool
    requires { Contains table.now.imports import.now }
    ensures yes { IsTrue result → DiffersFromOther table.now import.now }
    ensures no { IsFalse result → IsLikeLast table.now import.now }
{
    match table.latest_import_of(import.bound) {
        Some(index) => !same_target(import, &table.imports()[index]),
        None => false,
    }
}

/// Whether an import of the same name that is there at once has another target. Where this one is there always, each of another
/// target is; and one that has the target of the last is not asked, since one of another target then meets it.
fn meets_import(table: &Table, import: &Import<PathId, NameId>) -> bool
    requires { Contains table.now.imports import.now }
    ensures yes { IsTrue result → MeetsOther table.now import.now }
    ensures no { IsFalse result → IsLikeLast table.now import.now ⊎ MeetsNoOther table.now import.now }
{
    differs_from_last(table, import) && (stands_always(import) || table.sees_other(import))
}

/// Whether a declaration of the import's name is there at once with it, and the import aims elsewhere. Only where the import
/// aims elsewhere are the declarations asked for.
fn clashes_with_declaration(table: &Table, import: &Import<PathId, NameId>) -> bool
    ensures yes { IsTrue result → (IsOwn table.now.path import.now → ⊥) × MeetsDeclaration table.now import.now }
    ensures no { IsFalse result → IsOwn table.now.path import.now ⊎ MeetsNoDeclaration table.now import.now }
{
    !is_own(table.path(), import) && meets_declaration(table, import)
}

/// Whether an import has another target than a binder of its name that is there at once.
fn clashes(table: &Table, import: &Import<PathId, NameId>) -> bool
    requires { Contains table.now.imports import.now }
    ensures yes { IsTrue result → Clashes table.now import.now.bound }
    ensures no { IsFalse result → IsAlone table.now import.now }
{
    clashes_with_declaration(table, import) || meets_import(table, import)
}

/// Tells of the name of an import, where it clashes.
fn tell_clash(
    table: &Table,
    import: &Import<PathId, NameId>,
    told: &mut Keys<Told<PathId, NameId>>,
) -> Result<(), AllocError>
    requires there { Contains table.now.imports import.now }
    requires keys { AreKeys told.old }
    ensures keys { OnOk result (AreKeys told.new) }
    ensures kept { OnOk result (KeepsTold told.old.list.items told.new.list.items) }
    ensures only { OnOk result (TellsOnly told.old.list.items told.new.list.items (IsClashOf table.now)) }
    ensures seen { OnOk result (IsSeen table.now told.new.list.items import.now) }
{
    if !clashes(table, import) {
        return Ok(());
    }
    let path = table.path();
    let found = Told {
        flaw: Flaw::Clash(import.bound),
        asker: Asker::Whole(path),
        at: path,
    };
    keys::put(told, found)?;
    Ok(())
}

/// Tells of each name of a module that clashes.
pub fn tell_clashes(table: &Table, told: &mut Keys<Told<PathId, NameId>>) -> Result<(), AllocError>
    requires keys { AreKeys told.old }
    ensures keys { OnOk result (AreKeys told.new) }
    ensures tells { OnOk result (Gains told.old.list.items told.new.list.items (IsClashOf table.now)) }
{
    for import in table.imports() {
        tell_clash(table, import, told)?;
    }
    Ok(())
}
