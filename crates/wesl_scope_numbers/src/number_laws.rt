//! Laws of numbers: canonical ones, and those that nodes are given.
ghost use Rattle.wesl_scope_numbers.specs.NumberLaws.{HasNumbers, HasOneList};
ghost use Rattle.wesl_scope_numbers.specs.Leaves.{HaveLeaves, TakesNumbers, KeepsSpelling};

/// An identifier has nothing below it in the trees of nodes.
pub fn law_of_leaves()
    ensures { HaveLeaves }
{}

/// Trees in which each identifier has its number from a list have these numbers, and are else as they were.
pub fn law_of_renumbering()
    ensures numbers { TakesNumbers }
    ensures spelling { KeepsSpelling }
{}

/// Canonical numbers are there for all keys, and are one list.
pub fn law_of_numbers()
    ensures there { HasNumbers }
    ensures one { HasOneList }
{}
