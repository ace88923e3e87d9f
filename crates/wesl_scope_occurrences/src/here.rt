//! What its surroundings say of a node.
ghost use Rattle.std.specs.Prelude.{◌≡◌, true, false};
ghost use Rattle.std.specs.Option.{option_map};
ghost use Rattle.wesl_tree_names.specs.Path.{path_view};
ghost use Rattle.wesl_scope_occurrences.specs.Occurrences.{standing_in, declared, a_value, referring};
ghost use Rattle.wesl_scope_occurrences.specs.Walk.{outermost};
ghost use Rattle.wesl_scope_occurrences.specs.Views.{here_view, leading_path, standing_view};

use crate::occurrence::Standing;
use wesl_tree::ModulePath;

/// What its surroundings say of a node.
#[derive(Clone, Copy)]
pub struct Here {
    /// the number of its block
    pub block: usize,
    /// the block that the nearest holder of a body round it opens
    pub held_block: usize,
    /// whether its block is another than the module's
    pub is_local: bool,
    /// the number of the global declaration that it lies in
    pub declaration: Option<usize>,
    /// whether names are words
    pub words: bool,
    /// whether it lies in the arguments of a custom attribute
    pub excused: bool,
}

/// The path that stands in a box.
fn unboxed(path: &Option<Box<ModulePath>>) -> Option<&ModulePath>
    ensures { option_map (λ p. path_view p.now) result ≡ leading_path path.now }
{
    match path {
        None => None,
        Some(path) => Some(path.as_ref()),
    }
}

impl Here {
    /// In the module's block, outside of all declarations.
    pub fn outermost() -> Here
        ensures { here_view result ≡ outermost }
    {
        Here {
            block: 0,
            held_block: 0,
            is_local: false,
            declaration: None,
            words: false,
            excused: false,
        }
    }

    /// In the block that the holder opens.
    pub fn inside(&self) -> Here
        ensures { here_view result ≡ standing_in self.now.held_block (here_view self.now) }
    {
        Here {
            block: self.held_block,
            is_local: true,
            ..*self
        }
    }

    /// How a name stands that a declaration declares here, before its end is known.
    pub fn value_name<'a>(&self) -> Standing<'a>
        ensures { standing_view result ≡ declared a_value (here_view self.now) 0 }
    {
        if self.is_local {
            Standing::Local { end: 0 }
        } else {
            Standing::ModuleName
        }
    }

    /// How a name stands that refers here, by its path where it has one: where names are words it is a word.
    pub fn referring<'a>(&self, path: &'a Option<Box<ModulePath>>) -> Standing<'a>
        ensures { standing_view result ≡ referring self.now.words (leading_path path.now) }
    {
        if self.words {
            Standing::Word
        } else {
            Standing::Reference(unboxed(path))
        }
    }

    /// In the module's block.
    pub fn in_module(&self) -> Here
        ensures { here_view result ≡ record (here_view self.now) { block = 0; is_local = false } }
    {
        Here {
            block: 0,
            is_local: false,
            ..*self
        }
    }

    /// Where all names are words.
    pub fn in_words(&self) -> Here
        ensures { here_view result ≡ record (here_view self.now) { words = true } }
    {
        Here {
            words: true,
            ..*self
        }
    }
}
