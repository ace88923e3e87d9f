//! The symbols that are reached.
ghost use Rattle.std.specs.Prelude.{◌≡◌, ◌↔◌, ◌<◌, ◌^◌, [], length, IsTrue, OnOk, Contains};
ghost use Rattle.wesl_link_symbols.specs.declared.ids.PathId.{PathId};
ghost use Rattle.wesl_tree_base.specs.declared.ids.NameId.{NameId};
ghost use Rattle.wesl_link_symbols.specs.Keyed.{PutsKey};

use std::alloc::{AllocError, Global};
use std::collections::HashSet;
use std::marker::Model;
use wesl_link_symbols::ids::{NameId, PathId};
use wesl_link_symbols::keyed;
use wesl_link_symbols::symbols::Symbol;

/// Symbols in the order in which they were found, each once.
pub struct Symbols {
    found: Vec<Symbol<PathId, NameId>>,
    held: HashSet<Symbol<PathId, NameId>>,
}

// By hand, so that it is proved once: a derived one is proved in each crate that lets go of a value.
impl Drop for Symbols {
    fn drop(self) {
        let Symbols { found: _, held: _ } = self;
    }
}

impl Model for Symbols {
    ghost use Rattle.wesl_link_symbols.specs.Keyed.{HaveTheSame};
    ghost use Rattle.wesl_link_symbols.specs.declared.ids.PathId.{PathId};
    ghost use Rattle.wesl_tree_base.specs.declared.ids.NameId.{NameId};
    ghost use Rattle.wesl_link_reach.specs.Reached.{SymbolKeys};

    ghost Value = { SymbolKeys PathId NameId };

    ghost view = { λ s. record { keys = s.found.items } };

    ghost invariant = { λ s. HaveTheSame s.found.items s.held.keys };
}

impl Symbols {
    /// No symbols. They take no memory.
    pub fn new(alloc: Global) -> Symbols
        ensures { result.keys ≡ [] }
    {
        Symbols {
            found: Vec::new(alloc),
            held: HashSet::new(alloc),
        }
    }

    /// Puts a symbol at the end, unless it is there. Refused for want of memory.
    pub fn put(&mut self, symbol: Symbol<PathId, NameId>) -> Result<(), AllocError>
        ensures { OnOk result (PutsKey self.old.keys symbol self.new.keys) }
    {
        keyed::put_key(&mut self.found, &mut self.held, symbol)
    }

    /// Whether a symbol is there.
    pub fn has(&self, symbol: Symbol<PathId, NameId>) -> bool
        ensures { IsTrue result ↔ Contains self.now.keys symbol }
    {
        keyed::has_key(&self.held, symbol)
    }

    /// How many there are.
    pub fn len(&self) -> usize
        ensures len { result ≡ length self.now.keys }
        ensures small { result < 2 ^ 63 }
    {
        self.found.len()
    }

    /// All, in their order.
    pub fn as_slice(&self) -> &[Symbol<PathId, NameId>]
        ensures keys { result.now ≡ self.now.keys }
    {
        &self.found
    }
}
