//! Laws of the definitions.
ghost use Rattle.wesl_scope.specs.Laws.{StripsOneWay, KeepsNoMore};

pub use wesl_scope_spans::law_of_spans;

/// A module is stripped in one way, and no less is kept than what is named, what has no name, and what these reach.
pub fn law_of_stripping()
    ensures one { StripsOneWay }
    ensures least { KeepsNoMore }
{}
