//! Following look-ups from module to module.
ghost use Rattle.std.specs.Prelude.{◌≡◌, reverse, Some, IfSome, IfNone, IfOk, OnOk, IfErr, Contains};
ghost use Rattle.wesl_link_symbols.specs.declared.ids.PathId.{PathId};
ghost use Rattle.wesl_tree_base.specs.declared.ids.NameId.{NameId};
ghost use Rattle.wesl_link_symbols.specs.declared.symbols.LookUp.{LookUp};
ghost use Rattle.wesl_link_reach.specs.World.{Hops, HasMet, Followed, LeadsTo, Walk};
ghost use Rattle.wesl_link_symbols.specs.Names.{Answers};
ghost use Rattle.wesl_link_reach.specs.Loading.{Grows, ArePlaced, IsAnswered, IsWalked, HasFound, HoldsAtPath, GoesOn, IsLoaded, with_trodden, world_of, task_at};
ghost use Rattle.wesl_link_reach.specs.Trodden.{AreTrodden, IsOnWay, symbol_of};
ghost use Rattle.wesl_link_reach.specs.OverLoader.{LoaderAdds, IsSoundOver, CanLoad, RefusesRequest};

use crate::error::LinkError;
use crate::load::load;
use crate::loader::Loader;
use crate::request::{Loaded, Request, loaded_table};
use crate::trail::Trail;
use crate::trodden::question;
use std::alloc::{AllocError, Global};
use wesl_link_symbols::ids::{NameId, PathId};
use wesl_link_symbols::keyed;
use wesl_link_symbols::symbols::{Answer, LookUp, Symbol};

/// The answer of the loaded module that is asked.
fn answer_at(
    request: &Request,
    loaded: &Loaded,
    look_up: LookUp<PathId, NameId>,
) -> Answer<PathId, NameId>
    requires placed { ArePlaced loaded.now.others.items loaded.now.places.entries }
    requires there { IsLoaded request.now loaded.now look_up.path }
    ensures { HoldsAtPath request.now loaded.now look_up.path (λ t. Answers t look_up result) }
{
    match loaded_table(request, loaded, look_up.path) {
        Some(table) => table.answer(look_up),
        None => unreachable!(),
    }
}

/// Asks one module: its symbol is put among the reached ones, or an import of it leads on.
fn hop<E, L: Loader<E>>(
    alloc: Global,
    request: &Request,
    loaded: &mut Loaded,
    loader: &mut L,
    look_up: LookUp<PathId, NameId>,
) -> Result<Option<LookUp<PathId, NameId>>, LinkError<E>>
    requires sound { IsSoundOver L.Loader loader.old request.now loaded.old }
    requires walked { IsWalked (world_of request.now loaded.old) (task_at request.now) look_up }
    requires can { CanLoad L.Loader loader.old request.now loaded.old look_up.path }
    ensures sound { OnOk result (IsSoundOver L.Loader loader.new request.now loaded.new) }
    ensures grows { OnOk result (Grows loaded.old loaded.new) }
    ensures next { IfOk result (λ o. IfSome o (λ n. Hops (world_of request.now loaded.new) look_up n)) }
    ensures can { IfOk result (λ o. IfSome o (λ n. CanLoad L.Loader loader.new request.now loaded.new n.path)) }
    ensures found { IfOk result (λ o. IfNone o (HasFound (world_of request.now loaded.new) loaded.new.symbols.keys look_up)) }
    ensures refused { IfErr result (RefusesRequest L.Loader loader.new request.now) }
    ensures adds { LoaderAdds L.Loader loader.old loader.new }
{
    load(alloc, request, loaded, loader, look_up.path)?;
    match answer_at(request, loaded, look_up) {
        Answer::Declared => {
            let symbol = Symbol {
                path: look_up.path,
                name: look_up.name,
            };
            loaded.symbols.put(symbol)?;
            Ok(None)
        }
        Answer::Next(next) => Ok(Some(next)),
        Answer::Missing => Err(LinkError::MissingDecl(look_up.path, look_up.name)),
        Answer::Private => Err(LinkError::Private(look_up.name, look_up.path)),
        Answer::Ambiguous => Err(LinkError::AmbiguousSymbol(look_up.name)),
    }
}

/// Follows a look-up to the symbol that it leads to, and keeps that as its answer.
pub fn follow<E, L: Loader<E>>(
    alloc: Global,
    request: &Request,
    loaded: &mut Loaded,
    loader: &mut L,
    start: LookUp<PathId, NameId>,
) -> Result<(), LinkError<E>>
    requires sound { IsSoundOver L.Loader loader.old request.now loaded.old }
    requires followed { Followed (world_of request.now loaded.old) (task_at request.now) start }
    requires can { CanLoad L.Loader loader.old request.now loaded.old start.path }
    ensures sound { OnOk result (IsSoundOver L.Loader loader.new request.now loaded.new) }
    ensures grows { OnOk result (Grows loaded.old loaded.new) }
    ensures answered { OnOk result (IsAnswered loaded.new.answers.entries start) }
    ensures refused { IfErr result (RefusesRequest L.Loader loader.new request.now) }
    ensures adds { LoaderAdds L.Loader loader.old loader.new }
{
    match keyed::value_at(&loaded.answers, start) {
        Some(_) => Ok(()),
        None => follow_new(alloc, request, loaded, loader, start),
    }
}

/// Keeps what each look-up of a trail leads to, from its end.
fn tread_back(
    request: &Request,
    loaded: &mut Loaded,
    start: LookUp<PathId, NameId>,
    trail: &mut Vec<LookUp<PathId, NameId>>,
    symbol: Symbol<PathId, NameId>,
) -> Result<(), AllocError>
    requires trodden { AreTrodden (world_of request.now loaded.old) loaded.old.symbols.keys loaded.old.trodden.steps }
    requires way { IsOnWay (world_of request.now loaded.old) loaded.old.symbols.keys loaded.old.trodden.steps start trail.old.items symbol }
    ensures rest { loaded.new ≡ with_trodden loaded.old loaded.new.trodden }
    ensures trodden { OnOk result (AreTrodden (world_of request.now loaded.old) loaded.old.symbols.keys loaded.new.trodden.steps) }
    ensures more { OnOk result (GoesOn loaded.old.trodden.steps loaded.new.trodden.steps) }
    ensures leads { OnOk result (LeadsTo (world_of request.now loaded.old) start symbol) }
{
    'back: while let Some(look_up) = trail.pop() {
        loaded.trodden.put(look_up, symbol)?;
    }
    Ok(())
}

/// The same where the trail ends at a look-up that is found where it asks. A look-up that no other came by is not kept.
fn tread(
    request: &Request,
    loaded: &mut Loaded,
    start: LookUp<PathId, NameId>,
    trail: &mut Vec<LookUp<PathId, NameId>>,
    current: LookUp<PathId, NameId>,
) -> Result<(), AllocError>
    requires trodden { AreTrodden (world_of request.now loaded.old) loaded.old.symbols.keys loaded.old.trodden.steps }
    requires walk { Walk (world_of request.now loaded.old) start (reverse trail.old.items) current }
    requires fresh { HasMet (reverse trail.old.items) current → ⊥ }
    requires found { HasFound (world_of request.now loaded.old) loaded.old.symbols.keys current }
    ensures rest { loaded.new ≡ with_trodden loaded.old loaded.new.trodden }
    ensures trodden { OnOk result (AreTrodden (world_of request.now loaded.old) loaded.old.symbols.keys loaded.new.trodden.steps) }
    ensures more { OnOk result (GoesOn loaded.old.trodden.steps loaded.new.trodden.steps) }
    ensures leads { OnOk result (LeadsTo (world_of request.now loaded.old) start (symbol_of current)) }
{
    if trail.is_empty() {
        return Ok(());
    }
    let symbol = question(current);
    loaded.trodden.put(current, symbol)?;
    tread_back(request, loaded, start, trail, symbol)?;
    Ok(())
}

/// Follows a look-up that has no answer.
fn follow_new<E, L: Loader<E>>(
    alloc: Global,
    request: &Request,
    loaded: &mut Loaded,
    loader: &mut L,
    start: LookUp<PathId, NameId>,
) -> Result<(), LinkError<E>>
    requires sound { IsSoundOver L.Loader loader.old request.now loaded.old }
    requires followed { Followed (world_of request.now loaded.old) (task_at request.now) start }
    requires can { CanLoad L.Loader loader.old request.now loaded.old start.path }
    ensures sound { OnOk result (IsSoundOver L.Loader loader.new request.now loaded.new) }
    ensures grows { OnOk result (Grows loaded.old loaded.new) }
    ensures answered { OnOk result (IsAnswered loaded.new.answers.entries start) }
    ensures refused { IfErr result (RefusesRequest L.Loader loader.new request.now) }
    ensures adds { LoaderAdds L.Loader loader.old loader.new }
{
    let mut trail = Trail::new(alloc, loaded.trodden.len());
    let mut current = start;
    'hops: loop {
        let asked = question(current);
        if trail.questions.has(asked) {
            return Err(LinkError::MissingDecl(current.path, current.name));
        }
        if let Some(symbol) = loaded.trodden.before(current, trail.bound) {
            tread_back(request, loaded, start, &mut trail.asked, symbol)?;
            keyed::put(&mut loaded.answers, start, symbol)?;
            return Ok(());
        }
        match hop(alloc, request, loaded, loader, current)? {
            Some(next) => {
                trail.push(&loaded.trodden, current)?;
                current = next;
            }
            None => {
                tread(request, loaded, start, &mut trail.asked, current)?;
                keyed::put(&mut loaded.answers, start, asked)?;
                return Ok(());
            }
        }
    }
}

/// Follows each of the look-ups.
pub fn follow_all<E, L: Loader<E>>(
    alloc: Global,
    request: &Request,
    loaded: &mut Loaded,
    loader: &mut L,
    asked: &[LookUp<PathId, NameId>],
) -> Result<(), LinkError<E>>
    requires sound { IsSoundOver L.Loader loader.old request.now loaded.old }
    requires followed { (l : LookUp PathId NameId) → Contains asked.now l → Followed (world_of request.now loaded.old) (task_at request.now) l }
    requires can { (l : LookUp PathId NameId) → Contains asked.now l → CanLoad L.Loader loader.old request.now loaded.old l.path }
    ensures sound { OnOk result (IsSoundOver L.Loader loader.new request.now loaded.new) }
    ensures grows { OnOk result (Grows loaded.old loaded.new) }
    ensures answered { OnOk result ((l : LookUp PathId NameId) → Contains asked.now l → IsAnswered loaded.new.answers.entries l) }
    ensures refused { IfErr result (RefusesRequest L.Loader loader.new request.now) }
    ensures adds { LoaderAdds L.Loader loader.old loader.new }
{
    for look_up in asked {
        follow(alloc, request, loaded, loader, *look_up)?;
    }
    Ok(())
}
