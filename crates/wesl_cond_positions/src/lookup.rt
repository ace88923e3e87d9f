//! What positions are looked up with.
ghost use Rattle.std.specs.Prelude.{◌≤◌, length};

use std::alloc::Global;
use wesl_tree_names::Names;

/// What sets of choices are made with.
#[derive(Clone, Copy)]
pub struct Lookup<'a> {
    /// what memory is taken from
    pub alloc: Global,
    /// the names of identifiers
    pub names: &'a Names,
    /// the flags of the choices
    pub flags: &'a [&'a str],
    pub ghost few: { length flags.now ≤ 16 },
}
