//! The law of numbers for names, the contract of a function that does nothing.
ghost use Rattle.wesl_tree_interner.specs.Different.{AreDifferent};
ghost use Rattle.wesl_tree_interner.specs.Interned.{texts_of};

use crate::interner::Interner;

/// Two numbers are equal exactly where their names are.
pub fn law_of_ids(names: &Interner)
    ensures { AreDifferent (texts_of names.now) }
{
    let _names = names;
}
