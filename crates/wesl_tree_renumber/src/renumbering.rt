//! The numbers that are given, and how an identifier takes one.
ghost use Rattle.wesl_tree_syntax.specs.Tree.{Role};
ghost use Rattle.wesl_tree_syntax.specs.View.{ident_tree};

use wesl_tree_names::Ident;

/// Gives the identifiers of nodes the numbers of a list, in document order. Each keeps its own where none is left.
#[derive(Drop)]
pub struct Renumbering<'a> {
    /// the numbers that are not given yet
    pub rest: &'a [usize],
}

impl<'a> Renumbering<'a> {
    ghost use Rattle.wesl_tree_renumber.specs.Renumbers.{Renumbers};

    /// The identifier takes the next number.
    pub(crate) fn ident(&mut self, ident: &mut Ident)
        ensures { (role : Role) → Renumbers self.old self.new (ident_tree role) ident.old ident.new }
    {
        if let Some((first, others)) = self.rest.split_first() {
            self.rest = others;
            *ident = Ident(*first);
        }
    }
}
