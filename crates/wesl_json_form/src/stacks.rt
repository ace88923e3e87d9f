//! Values and members whose lists have not ended.
ghost use Rattle.std.specs.Prelude.{◌≡◌, ◌<◌, ◌≤◌, [], length, take, drop, IfOk, OnOk};
ghost use Rattle.wesl_json_form.specs.View.{key_text};

use crate::key::Key;
use crate::value::{BorrowedValue, Members};
use bumpalo::Bump;
use std::alloc::{AllocError, Global};

// So many keys that were met are kept.
const SLOTS: usize = 256;

/// The items and the members of the lists that have not ended yet, those of the inmost list last, the arena that a list
/// goes to when it ends, and keys that were met, each in the slot of its text.
#[derive(Drop)]
pub(crate) struct Stacks<'a> {
    arena: &'a Bump,
    pub(crate) items: Vec<BorrowedValue<'a>>,
    pub(crate) members: Vec<(Key<'a>, BorrowedValue<'a>)>,
    keys: Vec<Key<'a>>,
}

impl<'a> Stacks<'a> {
    /// No list has begun. It takes no memory.
    pub(crate) fn new(alloc: Global, arena: &'a Bump) -> Stacks<'a>
        ensures items { result.items.items ≡ [] }
        ensures members { result.members.items ≡ [] }
    {
        Stacks {
            arena,
            items: Vec::new(alloc),
            members: Vec::new(alloc),
            keys: Vec::new(alloc),
        }
    }

    /// Ends the list of values that began when there were so many: they go to the arena. Refused for want of memory alone.
    pub(crate) fn end_items(&mut self, from: usize) -> Result<&'a [BorrowedValue<'a>], AllocError>
        requires { from ≤ length self.old.items.items }
        ensures ended { IfOk result (λ vs. vs.now ≡ drop from self.old.items.items) }
        ensures items { OnOk result (self.new.items.items ≡ take from self.old.items.items) }
        ensures members { OnOk result (self.new.members.items ≡ self.old.members.items) }
    {
        let arena = self.arena;
        let found: &'a [BorrowedValue<'a>] = arena.try_alloc_slice_copy(&self.items[from..])?;
        self.items.truncate(from);
        Ok(found)
    }

    /// Ends the list of members that began when there were so many: they go to the arena. Refused for want of memory alone.
    pub(crate) fn end_members(&mut self, from: usize) -> Result<Members<'a>, AllocError>
        requires { from ≤ length self.old.members.items }
        ensures ended { IfOk result (λ ms. ms.now ≡ drop from self.old.members.items) }
        ensures items { OnOk result (self.new.items.items ≡ self.old.items.items) }
        ensures members { OnOk result (self.new.members.items ≡ take from self.old.members.items) }
    {
        let arena = self.arena;
        let found: Members<'a> = arena.try_alloc_slice_copy(&self.members[from..])?;
        self.members.truncate(from);
        Ok(found)
    }

    /// The key with a text: the one that was met last in its slot, if it has this text, or else a new one. Refused for want of
    /// memory alone.
    pub(crate) fn key(&mut self, text: &'a str) -> Result<Key<'a>, AllocError>
        ensures text { IfOk result (λ k. key_text k ≡ text.now) }
        ensures items { self.new.items.items ≡ self.old.items.items }
        ensures members { self.new.members.items ≡ self.old.members.items }
    {
        let slot = slot_of(text);
        if let Some(met) = self.keys.get(slot) {
            if met.text() == text {
                return Ok(*met);
            }
        }
        let key = Key::new(self.arena, text)?;
        self.keep(slot, key)?;
        Ok(key)
    }

    // Keeps a key in a slot, and the first one in all of them.
    fn keep(&mut self, slot: usize, key: Key<'a>) -> Result<(), AllocError>
        ensures items { self.new.items.items ≡ self.old.items.items }
        ensures members { self.new.members.items ≡ self.old.members.items }
    {
        if let Some(met) = self.keys.get_mut(slot) {
            *met = key;
            return Ok(());
        }
        self.keys.resize(SLOTS, key)
    }
}

// The slot of a text. No two of the keys that the form and the bundle have are in one slot.
fn slot_of(text: &str) -> usize
    ensures { result < 256 }
{
    let bytes = text.as_bytes();
    let length = bytes.len();
    if length == 0 {
        return 0;
    }
    let first = bytes[0] as usize;
    let middle = bytes[length / 2] as usize;
    let last = bytes[length - 1] as usize;
    (length % SLOTS * 43 + first + middle * 25 + last) % SLOTS
}
