//! What a name means inside one module.
ghost use Rattle.std.specs.Prelude.{◌≡◌, ◌⊎◌, ◌↔◌, Some, IsTrue, IsFalse, IfSome, IfNone, IfOk, OnOk, Contains};
ghost use Rattle.wesl_cond_choices.specs.declared.place.Place.TheVariants.{Always};
ghost use Rattle.wesl_link_symbols.specs.declared.ids.PathId.{PathId};
ghost use Rattle.wesl_tree_base.specs.declared.ids.NameId.{NameId};
ghost use Rattle.wesl_link_symbols.specs.declared.symbols.LookUp.{LookUp};
ghost use Rattle.wesl_link_symbols.specs.Names.{SameTarget, IsOwn, AsksFrom, asked_for};
ghost use Rattle.wesl_link_reach.specs.Clashing.{AreApart, IsAlone, IsLikeLast, MeetsDeclaration, MeetsNoDeclaration, MeetsOther, MeetsNoOther};
ghost use Rattle.wesl_link_reach.specs.Faults.{Clashes, Meet};
ghost use Rattle.wesl_link_reach.specs.Asked.{Gains, AsksIn, IsUnclearName};

use std::alloc::{AllocError, Global};
use wesl_cond_choices::place::Place;
use wesl_link_symbols::answer::{is_own, same_target};
use wesl_link_symbols::ids::{NameId, PathId};
use wesl_link_symbols::symbols::{Import, LookUp, Reference};
use wesl_link_symbols::table::{Declaration, Table};

/// Whether what stands at the two places is there at once for some choice of flags, or one of them always.
fn meet(table: &Table, first: Place, second: Place) -> bool
    ensures { IsTrue result ↔ Meet table.now first second }
{
    first == Place::Always || table.sees(first, second)
}

/// Whether an import is there for each choice of flags.
fn stands_always(import: &Import<PathId, NameId>) -> bool
    ensures yes { IsTrue result → import.now.place ≡ Always }
    ensures no { IsFalse result → import.now.place ≡ Always → ⊥ }
{
    import.place == Place::Always
}

/// Whether a declaration of the import's name is there at once with it. All of them are gone over, as may be where the import is
/// there always: then the first is there at once with it.
fn meets_any_declaration(table: &Table, import: &Import<PathId, NameId>) -> bool
    ensures yes { IsTrue result → MeetsDeclaration table.now import.now }
    ensures no { IsFalse result → MeetsNoDeclaration table.now import.now }
{
    let mut at = table.latest_of(Some(import.bound));
    'declarations: while let Some(index) = at {
        if meet(table, table.declarations()[index].place(), import.place) {
            return true;
        }
        at = table.earlier_of(index, Some(import.bound));
    }
    false
}

/// Whether a declaration of the import's name is there at once with it.
fn meets_declaration(table: &Table, import: &Import<PathId, NameId>) -> bool
    ensures yes { IsTrue result → MeetsDeclaration table.now import.now }
    ensures no { IsFalse result → MeetsNoDeclaration table.now import.now }
{
    if stands_always(import) {
        return meets_any_declaration(table, import);
    }
    table.sees_declaration(import.bound, import.place)
}

/// Whether two imports are there at once and have different targets.
fn are_apart(table: &Table, first: &Import<PathId, NameId>, second: &Import<PathId, NameId>) -> bool
    ensures yes { IsTrue result → AreApart table.now first.now second.now }
    ensures no { IsFalse result → Meet table.now first.now.place second.now.place → SameTarget first.now second.now }
{
    meet(table, first.place, second.place) && !same_target(first, second)
}

/// Whether an import of the same name that is there at once has another target. All of them are gone over, as may be where this
/// one is there always: then the first of another target is there at once with it.
fn meets_any_import(table: &Table, import: &Import<PathId, NameId>) -> bool
    ensures yes { IsTrue result → MeetsOther table.now import.now }
    ensures no { IsFalse result → MeetsNoOther table.now import.now }
{
    let mut at = table.latest_import_of(import.bound);
    'imports: while let Some(index) = at {
        if are_apart(table, import, &table.imports()[index]) {
            return true;
        }
        at = table.earlier_import_of(index, import.bound);
    }
    false
}

/// Whether an import of the same name that is there at once has another target.
fn meets_import(table: &Table, import: &Import<PathId, NameId>) -> bool
    ensures yes { IsTrue result → MeetsOther table.now import.now }
    ensures no { IsFalse result → MeetsNoOther table.now import.now }
{
    if stands_always(import) {
        return meets_any_import(table, import);
    }
    table.sees_other(import)
}

/// Whether the last import of the name has the target of this one.
fn agrees_with_last(table: &Table, import: &Import<PathId, NameId>) -> bool
    ensures { IsTrue result → IsLikeLast table.now import.now }
{
    match table.latest_import_of(import.bound) {
        Some(index) => same_target(import, &table.imports()[index]),
        None => false,
    }
}

/// Whether a declaration of the import's name is there at once with it, and the import aims elsewhere. Only where the import
/// aims elsewhere are the declarations gone over.
fn clashes_with_declaration(table: &Table, import: &Import<PathId, NameId>) -> bool
    ensures yes { IsTrue result → (IsOwn table.now.path import.now → ⊥) × MeetsDeclaration table.now import.now }
    ensures no { IsFalse result → IsOwn table.now.path import.now ⊎ MeetsNoDeclaration table.now import.now }
{
    !is_own(table.path(), import) && meets_declaration(table, import)
}

/// Whether another import of the name is there at once with it, and has another target. Only where the name has imports with
/// two targets are they gone over.
fn clashes_with_import(table: &Table, import: &Import<PathId, NameId>) -> bool
    ensures yes { IsTrue result → MeetsOther table.now import.now }
    ensures no { IsFalse result → IsLikeLast table.now import.now ⊎ MeetsNoOther table.now import.now }
{
    !agrees_with_last(table, import) && meets_import(table, import)
}

/// Whether an import has another target than a binder of its name that is there at once.
#[tactic(auto, using(crate::proofs::Clashing::clash_declared, crate::proofs::Clashing::clash_imported))]
fn clashes(table: &Table, import: &Import<PathId, NameId>) -> bool
    requires { Contains table.now.imports import.now }
    ensures yes { IsTrue result → Clashes table.now import.now.bound }
    ensures no { IsFalse result → IsAlone table.now import.now }
{
    clashes_with_declaration(table, import) || clashes_with_import(table, import)
}

/// A name that has binders with different targets that are there at once (WGSL, "Declaration and Scope", and WESL,
/// "ConditionalTranslation").
pub fn clash(table: &Table) -> Option<NameId>
    ensures clash { IfSome result (λ n. Clashes table.now n) }
    ensures none { IfNone result ((n : NameId) → Clashes table.now n → ⊥) }
{
    for import in table.imports() {
        if clashes(table, import) {
            return Some(import.bound);
        }
    }
    None
}

/// What a reference asks for.
pub fn ask(table: &Table, reference: &Reference<PathId, NameId>) -> LookUp<PathId, NameId>
    ensures { result ≡ asked_for table.now reference.now }
{
    LookUp {
        asker: Some(table.path()),
        path: reference.path,
        name: reference.name,
        from: reference.from,
    }
}

/// Adds what the names used in a declaration ask for.
fn add_asked(
    table: &Table,
    declaration: &Declaration,
    asked: &mut Vec<LookUp<PathId, NameId>>,
) -> Result<(), AllocError>
    ensures { OnOk result (Gains asked.old.items asked.new.items (AsksIn table.now declaration.now.references)) }
{
    for reference in declaration.references() {
        asked.push(ask(table, reference))?;
    }
    Ok(())
}

/// What the declarations of that name ask for, or where there is none, the const_asserts.
pub fn asked_from(
    alloc: Global,
    table: &Table,
    name: Option<NameId>,
) -> Result<Vec<LookUp<PathId, NameId>>, AllocError>
    ensures { IfOk result (λ v. (l : LookUp PathId NameId) → Contains v.items l ↔ AsksFrom table.now name l) }
{
    let mut asked = Vec::new(alloc);
    let mut at = table.latest_of(name);
    'declarations: while let Some(index) = at {
        add_asked(table, &table.declarations()[index], &mut asked)?;
        at = table.earlier_of(index, name);
    }
    Ok(asked)
}

/// The first name used in a declaration that stands for two things.
fn first_unclear(declaration: &Declaration) -> Option<NameId>
    ensures found { IfSome result (λ n. Contains declaration.now.unclear n) }
    ensures none { IfNone result ((n : NameId) → Contains declaration.now.unclear n → ⊥) }
{
    let unclear = declaration.unclear();
    if unclear.is_empty() {
        return None;
    }
    Some(unclear[0])
}

/// A name used in the declarations of that name that stands for two things, or where there is none, in the const_asserts.
pub fn unclear_from(table: &Table, name: Option<NameId>) -> Option<NameId>
    ensures { IsUnclearName table.now name result }
{
    let mut at = table.latest_of(name);
    'declarations: while let Some(index) = at {
        if let Some(unclear) = first_unclear(&table.declarations()[index]) {
            return Some(unclear);
        }
        at = table.earlier_of(index, name);
    }
    None
}
