//! The look-ups that a search went through.
ghost use Rattle.std.specs.Prelude.{◌≡◌, ◌↔◌, ◌<◌, ◌^◌, [], length, IsTrue, OnOk, Contains};
ghost use Rattle.wesl_link_symbols.specs.Keyed.{PutsKey};

use std::alloc::{AllocError, Global};
use std::collections::HashSet;
use std::marker::Model;
use wesl_link_symbols::ids::{NameId, PathId};
use wesl_link_symbols::keyed;
use wesl_link_symbols::symbols::LookUp;

/// The look-ups that a search went through, each once.
pub struct Trail {
    found: Vec<LookUp<PathId, NameId>>,
    held: HashSet<LookUp<PathId, NameId>>,
}

// By hand, so that it is proved once: a derived one is proved in each crate that lets go of a value.
impl Drop for Trail {
    fn drop(self) {
        let Trail { found: _, held: _ } = self;
    }
}

impl Model for Trail {
    ghost use Rattle.std.specs.Prelude.{List};
    ghost use Rattle.wesl_link_symbols.specs.Keyed.{HaveTheSame};
    ghost use Rattle.wesl_link_symbols.specs.declared.ids.PathId.{PathId};
    ghost use Rattle.wesl_tree_base.specs.declared.ids.NameId.{NameId};
    ghost use Rattle.wesl_link_symbols.specs.declared.symbols.LookUp.{LookUp};

    ghost Value = { List (LookUp PathId NameId) };

    ghost view = { λ s. s.found.items };

    ghost invariant = { λ s. HaveTheSame s.found.items s.held.keys };
}

impl Trail {
    /// No look-ups. They take no memory.
    pub fn new(alloc: Global) -> Trail
        ensures { result ≡ [] }
    {
        Trail {
            found: Vec::new(alloc),
            held: HashSet::new(alloc),
        }
    }

    /// Puts a look-up at the end, unless it is there. Refused for want of memory.
    pub fn put(&mut self, look_up: LookUp<PathId, NameId>) -> Result<(), AllocError>
        ensures puts { OnOk result (PutsKey self.old look_up self.new) }
        ensures small { length self.new < 2 ^ 63 }
    {
        keyed::put_key(&mut self.found, &mut self.held, look_up)
    }

    /// Whether a look-up is there.
    pub fn has(&self, look_up: LookUp<PathId, NameId>) -> bool
        ensures { IsTrue result ↔ Contains self.now look_up }
    {
        keyed::has_key(&self.held, look_up)
    }
}
