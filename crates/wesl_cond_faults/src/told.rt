//! What is told of a module so far.

use std::alloc::Global;
use wesl_tree_names::{CondCompError, Diagnostic, Error, Span};

/// The faults that were told, in document order.
#[derive(Drop)]
pub struct Told {
    /// what memory is taken from
    pub alloc: Global,
    /// the faults
    pub diagnostics: Vec<Diagnostic>,
    /// whether memory was wanting, so that a fault was not told
    pub is_refused: bool,
}

impl Told {
    ghost use Rattle.std.specs.Prelude.{◌≡◌, ◌++◌, [], ◌∷◌, ℕ, List, false};
    ghost use Rattle.wesl_cond_chains.specs.FormulaFaults.{Fault, Tells, invalid_flag, unexpected_flag};
    ghost use Rattle.wesl_cond_faults.specs.Telling.{AddsFault, AddsFlag, IsTold};
    ghost use Rattle.wesl_tree_names.specs.Path.{Text};

    /// Nothing yet.
    pub fn new(alloc: Global) -> Told
        ensures { (names : List Text) → IsTold names [] result }
    {
        Told {
            alloc,
            diagnostics: Vec::new(alloc),
            is_refused: false,
        }
    }

    /// One more fault.
    fn push(&mut self, told: Diagnostic)
        ensures kept { self.new.is_refused ≡ false → self.old.is_refused ≡ false }
        ensures pushed { self.new.is_refused ≡ false → self.new.diagnostics.items ≡ self.old.diagnostics.items ++ told ∷ [] }
    {
        self.is_refused |= self.diagnostics.push(told).is_err();
    }

    /// Tells a fault at a place.
    pub fn tell(&mut self, fault: CondCompError, span: Span)
        ensures { (names : List Text) → (f : Fault ℕ) → Tells names (Error.CondComp fault) f → AddsFault names span f self.old self.new }
    {
        let told = Diagnostic::at(Error::CondComp(fault), span);
        self.push(told);
    }

    /// Tells a flag with template arguments.
    pub fn tell_invalid(&mut self, name: &str, span: Span)
        ensures { AddsFlag invalid_flag name.now span self.old self.new }
    {
        match String::from_str(self.alloc, name) {
            Ok(name) => self.tell(CondCompError::InvalidFeatureFlag(name), span),
            Err(_) => self.is_refused = true,
        }
    }

    /// Tells a flag that is answered by a refusal.
    pub fn tell_unexpected(&mut self, name: &str, span: Span)
        ensures { AddsFlag unexpected_flag name.now span self.old self.new }
    {
        match String::from_str(self.alloc, name) {
            Ok(name) => self.tell(CondCompError::UnexpectedFeatureFlag(name), span),
            Err(_) => self.is_refused = true,
        }
    }
}
