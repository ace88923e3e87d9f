//! How the hops of a trail end, kept from its end: none of them is walked again.
ghost use Rattle.std.specs.Prelude.{◌≡◌, ◌++◌, ◌∷◌, reverse, IsTrue, IfSome, IfOk, OnOk, Contains};
ghost use Rattle.wesl_link_symbols.specs.declared.ids.PathId.{PathId};
ghost use Rattle.wesl_tree_base.specs.declared.ids.NameId.{NameId};
ghost use Rattle.wesl_link_reach.specs.World.{HasMet, Hops, Walk};
ghost use Rattle.wesl_link_trails.specs.Ends.{IsNotBefore};
ghost use Rattle.wesl_link_reach.specs.Trodden.{symbol_of};
ghost use Rattle.wesl_link_reach.specs.Loading.{GoesOn};
ghost use Rattle.wesl_link_flaws.specs.Ends.{AreKept, ComesBy, EndsWithin, IsBack, IsBehind, IsLeft, IsRing};
ghost use Rattle.wesl_link_flaws.specs.Searching.{IsReady, world_in};

use crate::given::{Given, missing};
use crate::told::End;
use std::alloc::{AllocError, Global};
use wesl_link_symbols::ids::{NameId, PathId};
use wesl_link_symbols::symbols::{LookUp, Symbol};
use wesl_link_trails::{Ends, question};

/// The look-up at which a walk entered a ring, and those behind it, the last first.
#[derive(Drop)]
pub struct Ring {
    pub entry: LookUp<PathId, NameId>,
    pub members: Vec<LookUp<PathId, NameId>>,
}

/// Keeps how each hop of a trail ends, where the trail comes to a look-up that ends so.
fn keep_back(
    given: &Given<'_>,
    entered: &[PathId],
    ends: &mut Ends<End<PathId, NameId>>,
    trail: &mut Vec<LookUp<PathId, NameId>>,
    start: LookUp<PathId, NameId>,
    behind: LookUp<PathId, NameId>,
    end: End<PathId, NameId>,
) -> Result<(), AllocError>
    requires kept { AreKept (world_in given.now) entered.now ends.old }
    requires back { IsBack (world_in given.now) entered.now ends.old.asked.items start trail.old.items behind end }
    ensures kept { OnOk result (AreKept (world_in given.now) entered.now ends.new) }
{
    let mut next = behind;
    'back: while let Some(look_up) = trail.pop() {
        ends.keep(look_up, next, end)?;
        next = look_up;
    }
    Ok(())
}

/// Keeps how each hop of a trail ends, where the trail comes to a look-up that was not asked and of which the end is known.
pub fn keep_way(
    given: &Given<'_>,
    entered: &[PathId],
    ends: &mut Ends<End<PathId, NameId>>,
    trail: &mut Vec<LookUp<PathId, NameId>>,
    start: LookUp<PathId, NameId>,
    current: LookUp<PathId, NameId>,
    bound: usize,
    end: End<PathId, NameId>,
) -> Result<(), AllocError>
    requires kept { AreKept (world_in given.now) entered.now ends.old }
    requires by { ComesBy (world_in given.now) entered.now start trail.old.items current }
    requires fresh { HasMet (reverse trail.old.items) current → ⊥ }
    requires apart { (b : LookUp PathId NameId) → Contains trail.old.items b → IsNotBefore ends.old.asked.items (symbol_of b) bound }
    requires ends { EndsWithin (world_in given.now) entered.now ends.old.asked.items bound current end }
    ensures kept { OnOk result (AreKept (world_in given.now) entered.now ends.new) }
{
    ends.note(question(current))?;
    keep_back(given, entered, ends, trail, start, current, end)
}

/// Takes off a trail the look-up with this question and those behind it.
fn leave(
    alloc: Global,
    trail: &mut Vec<LookUp<PathId, NameId>>,
    asked: Symbol<PathId, NameId>,
) -> Result<Option<Ring>, AllocError>
    ensures { IfOk result (λ r. IfSome r (IsLeft asked trail.old.items trail.new.items)) }
{
    let mut members = Vec::new(alloc);
    'back: while let Some(entry) = trail.pop() {
        if question(entry) == asked {
            return Ok(Some(Ring { entry, members }));
        }
        members.push(entry)?;
    }
    Ok(None)
}

/// Keeps how the hops of a ring end: each comes to itself again.
fn keep_members(
    given: &Given<'_>,
    entered: &[PathId],
    ends: &mut Ends<End<PathId, NameId>>,
    members: &[LookUp<PathId, NameId>],
    current: LookUp<PathId, NameId>,
) -> Result<(), AllocError>
    requires kept { AreKept (world_in given.now) entered.now ends.old }
    requires ring { IsRing (world_in given.now) entered.now ends.old.asked.items members.now current }
    ensures kept { OnOk result (AreKept (world_in given.now) entered.now ends.new) }
    ensures on { OnOk result (GoesOn ends.old.asked.items ends.new.asked.items) }
{
    let mut next = current;
    for member in members {
        ends.keep(*member, next, missing(*member))?;
        next = *member;
    }
    Ok(())
}

/// Keeps how the hops of a ring end, if it is one: the look-up that asks again goes on as the one did at which it was entered.
fn keep_ring(
    given: &Given<'_>,
    entered: &[PathId],
    ends: &mut Ends<End<PathId, NameId>>,
    members: &[LookUp<PathId, NameId>],
    behind: LookUp<PathId, NameId>,
    current: LookUp<PathId, NameId>,
) -> Result<(), AllocError>
    requires ready { IsReady given.now }
    requires kept { AreKept (world_in given.now) entered.now ends.old }
    requires ring { Hops (world_in given.now) current behind → IsRing (world_in given.now) entered.now ends.old.asked.items members.now current }
    ensures kept { OnOk result (AreKept (world_in given.now) entered.now ends.new) }
    ensures on { OnOk result (GoesOn ends.old.asked.items ends.new.asked.items) }
{
    match given.hop(current) {
        Ok(next) if next == behind => keep_members(given, entered, ends, members, current),
        _ => Ok(()),
    }
}

/// The look-up behind the one at which a ring was entered: its first member, or the one that asks again.
fn behind_entry(
    members: &[LookUp<PathId, NameId>],
    current: LookUp<PathId, NameId>,
) -> LookUp<PathId, NameId>
    ensures { IsBehind members.now current result }
{
    match members.last() {
        Some(first) => *first,
        None => current,
    }
}

/// Keeps how the hops of a ring end, and those of the trail that leads to it.
fn close_at(
    given: &Given<'_>,
    entered: &[PathId],
    ends: &mut Ends<End<PathId, NameId>>,
    trail: &mut Vec<LookUp<PathId, NameId>>,
    ring: &Ring,
    start: LookUp<PathId, NameId>,
    current: LookUp<PathId, NameId>,
) -> Result<(), AllocError>
    requires ready { IsReady given.now }
    requires kept { AreKept (world_in given.now) entered.now ends.old }
    requires by { ComesBy (world_in given.now) entered.now start (trail.old.items ++ ring.now.entry ∷ reverse ring.now.members.items) current }
    requires asked { symbol_of ring.now.entry ≡ symbol_of current }
    ensures kept { OnOk result (AreKept (world_in given.now) entered.now ends.new) }
{
    let end = missing(current);
    let behind = behind_entry(&ring.members, current);
    ends.note_all(&ring.members)?;
    ends.keep(ring.entry, behind, end)?;
    keep_ring(given, entered, ends, &ring.members, behind, current)?;
    keep_back(given, entered, ends, trail, start, ring.entry, end)
}

/// Keeps how each hop of a trail ends, where the trail comes to a look-up whose question it has asked.
pub fn close(
    alloc: Global,
    given: &Given<'_>,
    entered: &[PathId],
    ends: &mut Ends<End<PathId, NameId>>,
    trail: &mut Vec<LookUp<PathId, NameId>>,
    start: LookUp<PathId, NameId>,
    current: LookUp<PathId, NameId>,
) -> Result<(), AllocError>
    requires ready { IsReady given.now }
    requires kept { AreKept (world_in given.now) entered.now ends.old }
    requires by { ComesBy (world_in given.now) entered.now start trail.old.items current }
    ensures kept { OnOk result (AreKept (world_in given.now) entered.now ends.new) }
{
    match leave(alloc, trail, question(current))? {
        Some(ring) => close_at(given, entered, ends, trail, &ring, start, current),
        None => Ok(()),
    }
}
