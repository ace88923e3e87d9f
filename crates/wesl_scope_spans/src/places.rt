//! The spans that a walk has found. That memory was wanting is told at the end, so that the walk looks at nothing on its
//! way.
ghost use Rattle.std.specs.Prelude.{◌≡◌, ◌∷◌, [], false, IfOk};
ghost use Rattle.wesl_scope_spans.specs.Adds.{Gains};

use std::alloc::{AllocError, Global};
use wesl_tree::Span;

/// The spans of the identifiers that a walk has met so far, in document order.
#[derive(Drop)]
pub struct Places {
    /// of each identifier the span of the innermost node round it
    pub spans: Vec<Span>,
    /// whether memory was wanting
    pub is_refused: bool,
}

impl Places {
    /// No identifiers yet.
    pub fn new(alloc: Global) -> Places
        ensures none { result.spans.items ≡ [] }
        ensures kept { result.is_refused ≡ false }
    {
        Places {
            spans: Vec::new(alloc),
            is_refused: false,
        }
    }

    /// An identifier, where the innermost node round it has this span.
    pub fn meet(&mut self, round: Span)
        ensures { Gains self.old (round ∷ []) self.new }
    {
        self.is_refused |= self.spans.push(round).is_err();
    }

    /// The spans. Refused where memory was wanting.
    pub fn end(self) -> Result<Vec<Span>, AllocError>
        ensures { IfOk result (λ spans. (self.is_refused ≡ false) × (spans.items ≡ self.spans.items)) }
    {
        let Places { spans, is_refused } = self;
        if is_refused {
            return Err(AllocError);
        }
        Ok(spans)
    }
}
