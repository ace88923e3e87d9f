//! The numbers of paths and of names: one numbering for all modules of a link.
ghost use Rattle.std.specs.Prelude.{◌≡◌, [], false, IfOk};
ghost use Rattle.wesl_tree_names.specs.Path.{path_view, is_relative};
ghost use Rattle.wesl_tree_syntax.specs.Unit.{name_in};
ghost use Rattle.wesl_link_tables.specs.Numbering.{Grows, NameAt, PathAt};

use crate::texts::{NameTexts, NumberTexts};
use std::alloc::{AllocError, Global};
use wesl_link_paths::PathNumbers;
use wesl_link_symbols::ids::{NameId, PathId};
use wesl_tree_interner::Interner;
use wesl_tree_names::{Ident, ModulePath, Names};

/// The name of an identifier, and the empty text where the table has none.
pub fn spelling(names: &Names, ident: Ident) -> &str
    ensures { result.now ≡ name_in names.now ident.0 }
{
    if ident.0 < names.len() {
        names.name(ident)
    } else {
        ""
    }
}

/// The numbers of names and of paths.
#[derive(Drop)]
pub struct Numbers {
    pub names: Interner,
    pub paths: PathNumbers,
}

impl Numbers {
    ghost use Rattle.wesl_link_tables.specs.NumbersView.{numbering};
    ghost use Rattle.wesl_link_tables.specs.TextsView.{numbering_of_texts};

    /// No names and no paths. It takes no memory.
    pub fn new(alloc: Global) -> Numbers
        ensures { numbering result ≡ record { names = []; paths = [] } }
    {
        Numbers {
            names: Interner::new(alloc),
            paths: PathNumbers::new(alloc),
        }
    }

    /// The number of a name. Refused for want of memory alone.
    pub fn name(&mut self, name: &str) -> Result<NameId, AllocError>
        ensures numbered { IfOk result (λ n. NameAt (numbering self.new) n name.now) }
        ensures grows { Grows (numbering self.old) (numbering self.new) }
    {
        self.names.number(name)
    }

    /// The number of a path, which is not relative. Refused for want of memory alone.
    pub fn path(&mut self, alloc: Global, path: &ModulePath) -> Result<PathId, AllocError>
        requires { is_relative (path_view path.now) ≡ false }
        ensures numbered { IfOk result (λ p. PathAt (numbering self.new) p (path_view path.now)) }
        ensures grows { Grows (numbering self.old) (numbering self.new) }
    {
        self.paths.number(alloc, path)
    }

    /// What these numbers stand for, which are all that there are. Refused for want of memory alone.
    pub fn into_texts(self, alloc: Global) -> Result<NumberTexts, AllocError>
        ensures { IfOk result (λ t. numbering_of_texts t ≡ numbering self) }
    {
        let Numbers { names, paths } = self;
        let names = names.into_texts(alloc)?;
        let paths = paths.into_texts(alloc)?;
        Ok(NumberTexts {
            names: NameTexts::new(names),
            paths,
        })
    }
}
