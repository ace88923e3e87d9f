//! How an import finds what it aims at, where that has several targets in its own module, and which import asks for others too.
ghost use Rattle.std.specs.HashMap.{get};
ghost use Rattle.std.specs.Prelude.{◌≡◌, Some, if◌then◌else◌, unwrap_or, IfOk, OnOk};
ghost use Rattle.wesl_link_split.specs.Told.{told_view, order_told};

use std::alloc::AllocError;
use std::collections::HashMap;
use std::hash::Hash;
use wesl_cond_choices::place::Place;
use wesl_link_symbols::ids::{NameId, PathId};

/// How an import finds what it aims at, where that has several targets in its own module.
#[derive(PartialEq, Eq, Hash, Drop)]
pub(crate) enum Finding {
    /// It sees no binder of it.
    Nothing,
    /// It sees two targets.
    Several,
    /// It sees one, the item of the module at a path; and where along the binders of that sight changes, if it has several
    /// targets in the module too.
    One(PathId, NameId, Option<Vec<usize>>),
}

impl Finding {
    /// Which imports are asked before others.
    pub(crate) fn order(&self) -> usize
        ensures { result ≡ order_told (told_view self.now) }
    {
        match self {
            Finding::Nothing => 0,
            Finding::Several => 1,
            Finding::One(_, _, _) => 2,
        }
    }
}

/// What an import asks for: the item of the module at a path, which it finds so.
#[derive(PartialEq, Eq, Hash, Drop)]
pub(crate) struct Question {
    pub(crate) path: PathId,
    pub(crate) item: NameId,
    pub(crate) finding: Finding,
}

/// Where the first asks from that has a question.
fn held_asker<K: Eq + Hash>(askers: &HashMap<K, Place>, question: &K, stands: Place) -> Place
    ensures { result ≡ unwrap_or (get K.eq askers.now question.now) stands }
{
    match askers.get(question) {
        Some(place) => *place,
        None => stands,
    }
}

/// Where the first asks from that has a question: this place, where there is none yet, and it is noted.
pub(crate) fn first_asker<K: Eq + Hash + Drop>(
    askers: &mut HashMap<K, Place>,
    question: K,
    stands: Place,
) -> Result<Place, AllocError>
    ensures first { IfOk result (λ p. p ≡ unwrap_or (get K.eq askers.old question) stands) }
    ensures noted { OnOk result ((q : K) → get K.eq askers.new q ≡ (if K.eq question q then Some (unwrap_or (get K.eq askers.old question) stands) else get K.eq askers.old q)) }
{
    let first = held_asker(askers, &question, stands);
    askers.insert(question, first)?;
    Ok(first)
}
