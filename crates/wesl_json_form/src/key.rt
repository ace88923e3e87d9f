//! The keys of members.
ghost use Rattle.std.specs.Prelude.{◌≡◌, IfOk};
ghost use Rattle.wesl_json_form.specs.View.{key_text};

use bumpalo::Bump;
use std::alloc::AllocError;

/// The key of a member, one pointer wide: its text stands once in the arena for most members that have it.
#[derive(Clone, Copy)]
pub struct Key<'a> {
    text: &'a &'a str,
}

impl<'a> Key<'a> {
    /// The key with a text, which goes to the arena. Refused for want of memory alone.
    pub fn new(arena: &'a Bump, text: &'a str) -> Result<Key<'a>, AllocError>
        ensures { IfOk result (λ k. key_text k ≡ text.now) }
    {
        let text: &'a &'a str = arena.try_alloc(text)?;
        Ok(Key { text })
    }

    /// Its text.
    pub fn text(self) -> &'a str
        ensures { result.now ≡ key_text self.entry }
    {
        *self.text
    }
}
