//! Laws of units as texts.
ghost use Rattle.wesl_json_laws.specs.Laws.{SpansArePlaces};

/// A unit is printed in form 2, with spans, exactly where a node in its imports, its directives or its declarations has
/// a place other than `0..0`. It speaks of each unit that code has, whatever its names and its texts.
pub fn law_of_spans()
    ensures { SpansArePlaces }
{}
