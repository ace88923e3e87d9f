//! Equality of spans.
ghost use Rattle.std.specs.Prelude.{◌≡◌, ◌↔◌, IsTrue};

use wesl_tree_names::Span;

/// Whether two spans are equal: they start at one byte and end at one byte.
pub fn equal_spans(span: &Span, other: &Span) -> bool
    ensures { IsTrue result ↔ ((span.now.start ≡ other.now.start) × (span.now.end ≡ other.now.end)) }
{
    span == other
}
