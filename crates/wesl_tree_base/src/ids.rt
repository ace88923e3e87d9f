//! Numbers of names.

/// The number of a name, among names of which each distinct text has one.
#[derive(Clone, Copy, PartialEq, Eq, Hash, Drop)]
pub struct NameId(pub usize);
