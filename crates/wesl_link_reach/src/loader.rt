//! Where the tables of modules come from.
ghost use Rattle.std.specs.Prelude.{◌≡◌, IfOk, IfErr};
ghost use Rattle.wesl_link_symbols.specs.declared.ids.PathId.{PathId};
ghost use Rattle.wesl_tree_base.specs.declared.ids.NameId.{NameId};
ghost use Rattle.wesl_link_symbols.specs.Tables as tables;
ghost use Rattle.wesl_link_reach.specs.Loader.{Explains, IsReady, OnlyAdds};

use std::alloc::Global;
use wesl_link_symbols::ids::PathId;
use wesl_link_symbols::table::Table;

/// Why a loader hands out no table.
#[derive(Drop)]
pub enum LoadError<E> {
    /// The path is refused.
    Refused(E),
    /// Memory was short.
    Memory,
}

/// Hands out the tables of modules. A loader may learn more paths as it loads; what it handed out or refused stays so.
pub trait Loader<E> {
    /// The table is one that is handed out at the path.
    ghost hands: { Self → PathId → tables.Table PathId NameId → Type 0 };

    /// The path may be refused with the error.
    ghost refuses: { Self → PathId → E → Type 0 };

    /// The loader may be asked for the path.
    ghost ready: { Self → PathId → Type 0 };

    /// The table of the module at a path.
    fn load(&mut self, alloc: Global, path: PathId) -> Result<Table, LoadError<E>>
        requires { ready self.old path }
        ensures handed { IfOk result (λ t. hands self.new path t) }
        ensures path { IfOk result (λ t. t.path ≡ path) }
        ensures ready_paths { IfOk result (IsReady (ready self.new)) }
        ensures refused { IfErr result (Explains (refuses self.new path)) }
        ensures adds { OnlyAdds (hands self.old) (refuses self.old) (ready self.old) (hands self.new) (refuses self.new) (ready self.new) };
}
