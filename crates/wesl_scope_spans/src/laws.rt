//! Laws of the definitions.
ghost use Rattle.wesl_scope_spans.specs.Laws.{NoSpansAreNowhere, SpansAreInStep, SpansAreInnermost};

/// The identifiers that have spans are those that occur in the module, in the same order. The span of each is that of the
/// innermost of the nodes that hold it, and where no node has a span, no identifier has one.
pub fn law_of_spans()
    ensures in_step { SpansAreInStep }
    ensures innermost { SpansAreInnermost }
    ensures nowhere { NoSpansAreNowhere }
{}
