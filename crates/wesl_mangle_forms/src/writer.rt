//! Texts that are being written.
ghost use Rattle.std.specs.Prelude.{◌≡◌, [], IfOk, IfErr, string_bytes};
ghost use Rattle.wesl_tree_names.specs.declared.errors.Error as error;
ghost use Rattle.wesl_tree_names.specs.Path.{Text};
ghost use Rattle.wesl_mangle_forms.specs.Written.{AddsText, Says};

use std::alloc::{AllocError, Global};
use wesl_tree_names::Error;

/// A text that is being written. Want of memory is noted: nothing is added from then on, and the end tells it.
#[derive(Drop)]
pub struct Writer {
    /// where the text is written
    pub alloc: Global,
    text: String,
    is_refused: bool,
}

impl Writer {
    /// Nothing is written yet. It takes no memory.
    pub fn new(alloc: Global) -> Writer
        ensures { Says result [] }
    {
        Writer {
            alloc,
            text: String::new(alloc),
            is_refused: false,
        }
    }

    /// Adds the piece.
    pub fn push(&mut self, piece: &str)
        ensures { AddsText self.old self.new piece.now }
    {
        self.is_refused = self.is_refused || self.text.push_str(piece).is_err();
    }

    /// Adds the piece that was made, if it was.
    pub fn add(&mut self, piece: Result<String, AllocError>)
        ensures { (t : Text) → IfOk piece (λ s. string_bytes s ≡ t) → AddsText self.old self.new t }
    {
        match piece {
            Ok(piece) => self.push(piece.as_str()),
            Err(_) => self.is_refused = true,
        }
    }

    /// Notes that memory was wanting.
    pub fn refuse(&mut self)
        ensures { (t : Text) → AddsText self.old self.new t }
    {
        self.is_refused = true;
    }

    /// What was written, unless memory was wanting for it.
    pub fn end(self) -> Result<String, Error>
        ensures said { (t : Text) → Says self t → IfOk result (λ text. string_bytes text ≡ t) }
        ensures refused { IfErr result (λ e. e ≡ error.Memory) }
    {
        if self.is_refused {
            Err(Error::Memory)
        } else {
            Ok(self.text)
        }
    }
}
