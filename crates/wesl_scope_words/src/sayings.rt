//! What is said of the names that a walk has met. That memory was wanting is told at the end, so that the walk looks at
//! nothing on its way.
ghost use Rattle.std.specs.Prelude.{◌≡◌, [], false, map, IfOk};
ghost use Rattle.wesl_scope_words.specs.Said.{memory_words};
ghost use Rattle.wesl_scope_words.specs.Adds.{Notes, noted};

use std::alloc::{AllocError, Global};
use wesl_tree::{AccessMode, AddressSpace};

/// What a declaration says of its name: an address space, and perhaps an access mode.
pub type Memory = Option<(AddressSpace, Option<AccessMode>)>;

/// What is said of the names that a walk has met so far, in document order.
#[derive(Drop)]
pub struct Sayings {
    /// of each name what is said of it
    pub said: Vec<Memory>,
    /// whether memory was wanting
    pub is_refused: bool,
}

impl Sayings {
    /// No names yet.
    pub fn new(alloc: Global) -> Sayings
        ensures none { noted result ≡ [] }
        ensures kept { result.is_refused ≡ false }
    {
        Sayings {
            said: Vec::new(alloc),
            is_refused: false,
        }
    }

    /// A name, of which this is said.
    pub fn name(&mut self, memory: Memory)
        ensures { Notes self.old (memory_words memory) self.new }
    {
        self.is_refused |= self.said.push(memory).is_err();
    }

    /// What is said of each name. Refused where memory was wanting.
    pub fn end(self) -> Result<Vec<Memory>, AllocError>
        ensures { IfOk result (λ said. (self.is_refused ≡ false) × (map memory_words said.items ≡ noted self)) }
    {
        let Sayings { said, is_refused } = self;
        if is_refused {
            return Err(AllocError);
        }
        Ok(said)
    }
}
