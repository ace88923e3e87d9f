//! The worklist: each module and each reached symbol is taken once.
ghost use Rattle.std.specs.Prelude.{◌≡◌, ◌≤◌, ◌<◌, ◌+◌, length, Some, None, IfOk, OnOk, IfErr, Contains, false};
ghost use Rattle.wesl_link_symbols.specs.declared.ids.PathId.{PathId};
ghost use Rattle.wesl_tree_base.specs.declared.ids.NameId.{NameId};
ghost use Rattle.wesl_link_symbols.specs.declared.symbols.LookUp.{LookUp};
ghost use Rattle.wesl_link_reach.specs.Asked.{AreAsked, IsUnclearName};
ghost use Rattle.wesl_link_reach.specs.Faults.{IsAdmitted};
ghost use Rattle.wesl_link_reach.specs.Loader.{IsReady};
ghost use Rattle.wesl_link_reach.specs.Loading.{Grows, ArePlaced, HasClearAsserts, AnswersAsserts, AnswersKept, IsDoneIn, IsSymbolDone, ModulesDone, OfModuleAt, HoldsAtPlace, HoldsAtPath, SymbolsDone, IsLoaded, world_of};
ghost use Rattle.wesl_link_reach.specs.OverLoader.{LoaderAdds, IsSoundOver, RefusesRequest};

use crate::eager::{enter_imports, hold_declared};
use crate::error::LinkError;
use crate::follow::{follow, follow_all};
use crate::loader::Loader;
use crate::names;
use crate::request::{self, Loaded, Request, loaded_table, table_at};
use std::alloc::{AllocError, Global};
use wesl_cond_choices::place::Place;
use wesl_link_symbols::ids::{NameId, PathId};
use wesl_link_symbols::symbols::{LookUp, Symbol};

/// What the const_asserts of the module at a place ask for.
fn asked_by_module(
    alloc: Global,
    request: &Request,
    loaded: &Loaded,
    place: usize,
) -> Result<Vec<LookUp<PathId, NameId>>, AllocError>
    requires { place < length (world_of request.now loaded.now) }
    ensures { IfOk result (λ v. HoldsAtPlace request.now loaded.now place (λ t. AreAsked t None v.items)) }
{
    let table = table_at(request, loaded, place);
    let asked = names::asked_from(alloc, table, None)?;
    Ok(asked)
}

/// A name used in the const_asserts of the module at a place that stands for two things.
fn unclear_in_module(request: &Request, loaded: &Loaded, place: usize) -> Option<NameId>
    requires { place < length (world_of request.now loaded.now) }
    ensures { HoldsAtPlace request.now loaded.now place (λ t. IsUnclearName t None result) }
{
    names::unclear_from(table_at(request, loaded, place), None)
}

/// Answers all that the const_asserts of the module at a place ask for, where each name used in them stands for one thing.
fn answer_asserts<E, L: Loader<E>>(
    alloc: Global,
    request: &Request,
    loaded: &mut Loaded,
    loader: &mut L,
    place: usize,
) -> Result<(), LinkError<E>>
    requires sound { IsSoundOver L.Loader loader.old request.now loaded.old }
    requires within { place < length (world_of request.now loaded.old) }
    ensures sound { OnOk result (IsSoundOver L.Loader loader.new request.now loaded.new) }
    ensures grows { OnOk result (Grows loaded.old loaded.new) }
    ensures clear { OnOk result (OfModuleAt (world_of request.now loaded.old) place HasClearAsserts) }
    ensures answered { OnOk result (OfModuleAt (world_of request.now loaded.old) place (AnswersAsserts loaded.new.answers.entries)) }
    ensures refused { IfErr result (RefusesRequest L.Loader loader.new request.now) }
    ensures adds { LoaderAdds L.Loader loader.old loader.new }
{
    if let Some(name) = unclear_in_module(request, loaded, place) {
        return Err(LinkError::AmbiguousSymbol(name));
    }
    let asked = asked_by_module(alloc, request, loaded, place)?;
    follow_all(alloc, request, loaded, loader, &asked)?;
    Ok(())
}

/// Takes the module at a place: all that its const_asserts ask for is answered, and an eager link enters the paths that it
/// imports from and holds all that it declares.
fn take_module<E, L: Loader<E>>(
    alloc: Global,
    request: &Request,
    loaded: &mut Loaded,
    loader: &mut L,
    place: usize,
) -> Result<(), LinkError<E>>
    requires sound { IsSoundOver L.Loader loader.old request.now loaded.old }
    requires within { place < length (world_of request.now loaded.old) }
    ensures sound { OnOk result (IsSoundOver L.Loader loader.new request.now loaded.new) }
    ensures grows { OnOk result (Grows loaded.old loaded.new) }
    ensures done { OnOk result (OfModuleAt (world_of request.now loaded.old) place (IsDoneIn request.now loaded.new)) }
    ensures refused { IfErr result (RefusesRequest L.Loader loader.new request.now) }
    ensures adds { LoaderAdds L.Loader loader.old loader.new }
{
    answer_asserts(alloc, request, loaded, loader, place)?;
    if !request.is_eager {
        return Ok(());
    }
    enter_imports(alloc, request, loaded, loader, place)?;
    hold_declared(alloc, request, loaded, loader, place)?;
    Ok(())
}

/// Takes the modules from a place on until each is taken, and says how many there are.
fn take_modules<E, L: Loader<E>>(
    alloc: Global,
    request: &Request,
    loaded: &mut Loaded,
    loader: &mut L,
    start: usize,
) -> Result<usize, LinkError<E>>
    requires sound { IsSoundOver L.Loader loader.old request.now loaded.old }
    requires within { start ≤ length (world_of request.now loaded.old) }
    requires done { ModulesDone request.now loaded.old start }
    ensures sound { OnOk result (IsSoundOver L.Loader loader.new request.now loaded.new) }
    ensures grows { OnOk result (Grows loaded.old loaded.new) }
    ensures done { IfOk result (ModulesDone request.now loaded.new) }
    ensures all { IfOk result (λ n. n ≡ length (world_of request.now loaded.new)) }
    ensures refused { IfErr result (RefusesRequest L.Loader loader.new request.now) }
    ensures adds { LoaderAdds L.Loader loader.old loader.new }
{
    let mut place = start;
    'modules: while place <= loaded.others.len() {
        take_module(alloc, request, loaded, loader, place)?;
        place += 1;
    }
    Ok(place)
}

/// What the declarations of a symbol ask for.
fn asked_by_symbol(
    alloc: Global,
    request: &Request,
    loaded: &Loaded,
    symbol: Symbol<PathId, NameId>,
) -> Result<Vec<LookUp<PathId, NameId>>, AllocError>
    requires placed { ArePlaced loaded.now.others.items loaded.now.places.entries }
    requires there { IsLoaded request.now loaded.now symbol.path }
    ensures { IfOk result (λ v. HoldsAtPath request.now loaded.now symbol.path (λ t. AreAsked t (Some symbol.name) v.items)) }
{
    match loaded_table(request, loaded, symbol.path) {
        Some(table) => {
            let asked = names::asked_from(alloc, table, Some(symbol.name))?;
            Ok(asked)
        }
        None => unreachable!(),
    }
}

/// A name used in the declarations of a symbol that stands for two things.
fn unclear_in_symbol(
    request: &Request,
    loaded: &Loaded,
    symbol: Symbol<PathId, NameId>,
) -> Option<NameId>
    requires placed { ArePlaced loaded.now.others.items loaded.now.places.entries }
    requires there { IsLoaded request.now loaded.now symbol.path }
    ensures { HoldsAtPath request.now loaded.now symbol.path (λ t. IsUnclearName t (Some symbol.name) result) }
{
    match loaded_table(request, loaded, symbol.path) {
        Some(table) => names::unclear_from(table, Some(symbol.name)),
        None => unreachable!(),
    }
}

/// Takes a reached symbol: each name used in its declarations stands for one thing, and all that they ask for is answered.
fn take_symbol<E, L: Loader<E>>(
    alloc: Global,
    request: &Request,
    loaded: &mut Loaded,
    loader: &mut L,
    symbol: Symbol<PathId, NameId>,
) -> Result<(), LinkError<E>>
    requires sound { IsSoundOver L.Loader loader.old request.now loaded.old }
    requires held { Contains loaded.old.symbols.keys symbol }
    ensures sound { OnOk result (IsSoundOver L.Loader loader.new request.now loaded.new) }
    ensures grows { OnOk result (Grows loaded.old loaded.new) }
    ensures done { OnOk result (IsSymbolDone (world_of request.now loaded.new) loaded.new.answers.entries symbol) }
    ensures refused { IfErr result (RefusesRequest L.Loader loader.new request.now) }
    ensures adds { LoaderAdds L.Loader loader.old loader.new }
{
    if let Some(name) = unclear_in_symbol(request, loaded, symbol) {
        return Err(LinkError::AmbiguousSymbol(name));
    }
    let asked = asked_by_symbol(alloc, request, loaded, symbol)?;
    follow_all(alloc, request, loaded, loader, &asked)?;
    Ok(())
}

/// Takes modules and symbols until each is taken, and says how many there are.
fn take_all<E, L: Loader<E>>(
    alloc: Global,
    request: &Request,
    loaded: &mut Loaded,
    loader: &mut L,
) -> Result<usize, LinkError<E>>
    requires sound { IsSoundOver L.Loader loader.old request.now loaded.old }
    ensures sound { OnOk result (IsSoundOver L.Loader loader.new request.now loaded.new) }
    ensures grows { OnOk result (Grows loaded.old loaded.new) }
    ensures modules { OnOk result (ModulesDone request.now loaded.new (length (world_of request.now loaded.new))) }
    ensures symbols { OnOk result (SymbolsDone request.now loaded.new (length loaded.new.symbols.keys)) }
    ensures turns { IfOk result (λ n. n ≡ length (world_of request.now loaded.new) + length loaded.new.symbols.keys) }
    ensures refused { IfErr result (RefusesRequest L.Loader loader.new request.now) }
    ensures adds { LoaderAdds L.Loader loader.old loader.new }
{
    let mut place = 0;
    let mut turn = 0;
    'turns: loop {
        place = take_modules(alloc, request, loaded, loader, place)?;
        if turn >= loaded.symbols.len() {
            return Ok(place + turn);
        }
        let symbol = loaded.symbols.as_slice()[turn];
        take_symbol(alloc, request, loaded, loader, symbol)?;
        turn += 1;
    }
}

/// Follows the kept names, from outside.
fn follow_kept<E, L: Loader<E>>(
    alloc: Global,
    request: &Request,
    loaded: &mut Loaded,
    loader: &mut L,
) -> Result<(), LinkError<E>>
    requires sound { IsSoundOver L.Loader loader.old request.now loaded.old }
    ensures sound { OnOk result (IsSoundOver L.Loader loader.new request.now loaded.new) }
    ensures grows { OnOk result (Grows loaded.old loaded.new) }
    ensures answered { OnOk result (AnswersKept request.now loaded.new) }
    ensures refused { IfErr result (RefusesRequest L.Loader loader.new request.now) }
    ensures adds { LoaderAdds L.Loader loader.old loader.new }
{
    for name in &request.kept {
        let look_up = LookUp {
            asker: None,
            path: request.root.path(),
            name: *name,
            from: Place::Always,
        };
        follow(alloc, request, loaded, loader, look_up)?;
    }
    Ok(())
}

/// What is loaded at the end, and how many turns it took.
#[derive(Drop)]
pub struct Reach {
    pub loaded: Loaded,
    pub turns: usize,
}

/// Loads all that the request reaches.
pub fn reach_all<E, L: Loader<E>>(
    alloc: Global,
    request: &Request,
    loader: &mut L,
) -> Result<Reach, LinkError<E>>
    requires admitted { IsAdmitted request.now.root }
    requires ready_paths { IsReady (L.ready loader.old) request.now.root }
    requires room { 0 < request.now.max_modules }
    ensures sound { IfOk result (λ r. IsSoundOver L.Loader loader.new request.now r.loaded) }
    ensures kept { IfOk result (λ r. AnswersKept request.now r.loaded) }
    ensures modules { IfOk result (λ r. ModulesDone request.now r.loaded (length (world_of request.now r.loaded))) }
    ensures symbols { IfOk result (λ r. SymbolsDone request.now r.loaded (length r.loaded.symbols.keys)) }
    ensures turns { IfOk result (λ r. r.turns ≡ length (world_of request.now r.loaded) + length r.loaded.symbols.keys) }
    ensures refused { IfErr result (RefusesRequest L.Loader loader.new request.now) }
    ensures adds { LoaderAdds L.Loader loader.old loader.new }
{
    let mut loaded = request::begin(alloc);
    follow_kept(alloc, request, &mut loaded, loader)?;
    let turns = take_all(alloc, request, &mut loaded, loader)?;
    Ok(Reach { loaded, turns })
}
