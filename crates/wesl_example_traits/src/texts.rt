//! Text forms of one's own: one that is read alone, and one that stands over another.
ghost use Rattle.std.specs.Prelude.{◌≤◌, ◌<◌, ◌⊎◌, length};

use std::alloc::Global;
use wesl_json::JsonText;
use wesl_resolve::UnitText;
use wesl_tree::{Diagnostic, Error, TranslationUnit};

/// Reads a list of declarations, as JSON without the object round it. It prints nothing.
#[derive(Clone, Copy)]
pub struct Declarations;

impl UnitText for Declarations {
    ghost reads = { λ _ text u. Unit {0} };

    ghost unreadable = { λ _ text e. Unit {0} };

    ghost prints = { λ _ u text. ⊥ };

    fn read(&self, alloc: Global, text: &str) -> Result<TranslationUnit, Diagnostic> {
        let whole = format!(in alloc; "{{\"declarations\":{text}}}")?;
        JsonText.read(alloc, whole.as_str())
    }

    fn print(&self, _: Global, _: &TranslationUnit) -> Result<String, Diagnostic> {
        Err(Diagnostic::of(Error::Memory))
    }

    ghost reads_back = { λ s u v text paths printed read. absurd printed };
}

/// Reads and prints as another form does, but no text of more bytes than so many: a longer one is refused.
#[derive(Drop)]
pub struct Bounded<F> {
    /// how many
    pub most: usize,
    /// the other form
    pub inner: F,
}

impl<F: UnitText> UnitText for Bounded<F> {
    ghost reads = { λ s text u. (length text ≤ s.most) × F.reads s.inner text u };

    ghost unreadable = { λ s text e. (s.most < length text) ⊎ F.unreadable s.inner text e };

    ghost prints = { λ s u text. F.prints s.inner u text };

    fn read(&self, alloc: Global, text: &str) -> Result<TranslationUnit, Diagnostic> {
        if text.len() > self.most {
            return Err(Diagnostic::of(Error::NotJson));
        }
        self.inner.read(alloc, text)
    }

    fn print(&self, alloc: Global, unit: &TranslationUnit) -> Result<String, Diagnostic> {
        self.inner.print(alloc, unit)
    }

    ghost reads_back = { λ s u v text paths printed read. F.reads_back s.inner u v text paths printed read.1 };
}
