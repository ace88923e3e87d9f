//! What helps against a fault of a link, in words.

use wesl_explain_world::{FaultCure, Flaw, LinkFault};

/// What helps, as a word.
pub fn cure_word(cure: FaultCure) -> &'static str {
    match cure {
        FaultCure::Publish => "publish",
        FaultCure::Features => "features",
        FaultCure::Condition => "condition",
        FaultCure::Rename => "rename",
        FaultCure::MaxModules => "max_modules",
        FaultCure::Name => "name",
        FaultCure::Path => "path",
    }
}

/// What a condition helps.
fn condition_text(link: &LinkFault) -> &'static str {
    match link.wrong.flaw {
        Flaw::Clash(_) => "put them under conditions that exclude each other",
        Flaw::Unsure(_) => "put the use under a condition that leaves one of them",
        _ => "mend its conditions",
    }
}

/// What another name helps.
fn name_text(link: &LinkFault, is_kept: bool) -> &'static str {
    if !link.way.ring.is_empty() {
        return "declare it in one of these modules";
    }
    if is_kept {
        return "a name of `keep` must be declared by the root or published by it";
    }
    "declare it there, or ask for another name"
}

/// What helps, in words.
pub fn cure_text(cure: FaultCure, link: &LinkFault, is_kept: bool) -> &'static str {
    match cure {
        FaultCure::Publish =>
            "write `@publish` before that import, or import from where it is declared",
        FaultCure::Features => "decide flags of its conditions in `features`",
        FaultCure::Condition => condition_text(link),
        FaultCure::Rename => "rename one of them with `as`",
        FaultCure::MaxModules => "set a larger `max_modules`; what lies behind it is not told",
        FaultCure::Name => name_text(link, is_kept),
        FaultCure::Path => "add the module to the bundle, or ask for another path",
    }
}
