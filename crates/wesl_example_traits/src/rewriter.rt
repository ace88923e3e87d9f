//! A rewriter of one's own: it takes paths away.
ghost use Rattle.std.specs.Prelude.{◌≡◌, ℕ, true};
ghost use Rattle.wesl_tree.specs.Tree.{tree_below};

use std::alloc::Global;
use wesl_tree::{Error, TranslationUnit, TypeExpression};
use wesl_visit::{Rewrite, Visit};

/// Takes the path away from each type and each name that it is given.
#[derive(Drop)]
struct Shorten;

impl Rewrite<TypeExpression> for Shorten {
    ghost rewrites = { λ before after. (n : ℕ) → tree_below n before ≡ true → tree_below n after ≡ true };

    fn rewrite(&mut self, node: &mut TypeExpression) -> Result<(), Error> {
        node.path = None;
        Ok(())
    }
}

/// Takes the paths away from all that a unit refers to. Refused for want of memory alone.
pub fn drop_paths(alloc: Global, unit: &mut TranslationUnit) -> Result<(), Error> {
    unit.rewrite_rec(alloc, &mut Shorten)
}
