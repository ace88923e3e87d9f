//! What is promised of the text of linked units.
ghost use Rattle.wesl_text_laws.specs.Laws.{LinkedAreWritable, LinkedJudged, LinkedTexts};

/// The linked form of modules whose units are writable, as each is that a text says, is writable exactly where its printed names
/// are names: declarations stay as they are but for names and paths, and no comparison becomes a template list. The `_` of an
/// assignment that discards its value is no name that is printed. So it is where units are what features left of units that texts
/// say, whose assignments have attributes that end before their targets. It speaks of the units of `Resolutions::assemble` and of
/// `link_mapped`.
pub fn law_of_linked_text()
    ensures linked_are_writable { LinkedAreWritable }
    ensures linked_texts { LinkedTexts }
    ensures linked_judged { LinkedJudged }
{}
