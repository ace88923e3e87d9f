//! Laws of worlds, of any kind of paths and names.
ghost use Rattle.wesl_tree_base.specs.declared.ids.NameId.{NameId};
ghost use Rattle.wesl_link_reach.specs.Laws.{OnlyGrows, LeadsToOne, AreLeast, AreExclusive, WorklistIsEnough};

use crate::loader::Loader;

/// What is followed, entered and reached in a world is so in a larger one.
pub fn law_of_growth<P, N>()
    ensures { OnlyGrows P N }
{}

/// A look-up leads to one symbol at most where a path has one table.
pub fn law_of_look_ups<P, N>()
    ensures { LeadsToOne P N }
{}

/// What is entered and reached are the least sets that hold their consequences.
pub fn law_of_least_sets<P, N>()
    ensures { AreLeast P N }
{}

/// Success and refusal exclude each other, where a loader hands out one table a path and does not refuse that path too.
pub fn law_of_exclusion<E, L: Loader<E>>(loader: &L)
    ensures { AreExclusive (L.hands loader.now) (L.refuses loader.now) }
{}

/// A worklist that has ended has found all that is reached, and no fault stands.
pub fn law_of_worklists<E, L: Loader<E>>(loader: &L)
    ensures { WorklistIsEnough NameId (L.refuses loader.now) }
{}
