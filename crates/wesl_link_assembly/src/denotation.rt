//! What identifiers stand for in a linked unit.
ghost use Rattle.std.specs.Prelude.{◌≡◌};
ghost use Rattle.wesl_tree_names.specs.Path.{Text};
ghost use Rattle.wesl_link_symbols.specs.declared.ids.PathId as path_id;
ghost use Rattle.wesl_tree_base.specs.declared.ids.NameId as name_id;

use wesl_link_symbols::ids::{NameId, PathId};
use wesl_link_symbols::symbols::Symbol;

/// What an identifier stands for.
#[derive(Clone, Copy, PartialEq, Eq, Hash)]
pub enum Denotation<'a> {
    /// a name that the module at a path declares
    Symbol(Symbol<PathId, NameId>),
    /// a name of a block of the module at a path, the block told by its number
    Local(PathId, usize, &'a str),
    /// a name that nothing declares
    Free(&'a str),
}

/// The names that symbols are printed as (WESL, "NameMangling").
pub trait Printing {
    ghost printed: { Self → path_id.PathId → name_id.NameId → Text };

    /// The name of a symbol.
    fn name_of(&self, symbol: Symbol<PathId, NameId>) -> &str
        ensures { result.now ≡ printed self.now symbol.path symbol.name };
}
