//! What is promised of units with other names, and of units of parts.
ghost use Rattle.wesl_text_respell.specs.Laws.{RespelledUnits, RespelledTrees, UnitsOfParts, JoinedUnits};

/// A tree in the place of a sort, and a unit, that are writable stay so where each identifier keeps its text or gets one that
/// is a name, where types lose their paths, and where assignments to names discard their values: comparisons and template
/// lists are told apart as before.
pub fn law_of_respelling()
    ensures respelled_trees { RespelledTrees }
    ensures respelled_units { RespelledUnits }
{}

/// A unit is writable exactly where each of its imports, directives and declarations is, alone: what is told of template lists
/// in one does not look beyond its end. So one that is made of directives and declarations of writable units is writable.
pub fn law_of_joining()
    ensures units_of_parts { UnitsOfParts }
    ensures joined_units { JoinedUnits }
{}
