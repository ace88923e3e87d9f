//! References without their paths.
ghost use Rattle.std.specs.Prelude.{◌≡◌, IfOk, IfErr};
ghost use Rattle.wesl_tree_names.specs.declared.errors.Error as error;
ghost use Rattle.wesl_tree_syntax.specs.Unit.{forest_of_unit, trees_of};
ghost use Rattle.wesl_tree.specs.Translation.{unit_view};
ghost use Rattle.wesl_link_assembly.specs.Pathless.{pathless, without_paths};

use std::alloc::Global;
use wesl_tree::TranslationUnit;
use wesl_tree_names::Error;
use wesl_tree_syntax::TypeExpression;
use wesl_visit_rewrite::{Holder, Rewrite};

/// Takes the path away from each type expression that it is given.
#[derive(Drop)]
struct Shortening;

impl Rewrite<TypeExpression> for Shortening {
    ghost rewrites = { λ before after. after ≡ pathless before };

    fn rewrite(&mut self, node: &mut TypeExpression) -> Result<(), Error> {
        node.path = None;
        Ok(())
    }
}

/// Takes the paths away from references; words, as names in conditions, keep theirs.
pub fn drop_paths(alloc: Global, unit: &mut TranslationUnit) -> Result<(), Error>
    ensures pathless { IfOk result (λ _. forest_of_unit (trees_of (unit_view unit.new)) ≡ without_paths (forest_of_unit (trees_of (unit_view unit.old)))) }
    ensures names { (unit_view unit.new).names ≡ (unit_view unit.old).names }
    ensures refused { IfErr result (λ e. e ≡ error.Memory) }
{
    if unit.replace(alloc, true, &mut Shortening) {
        Ok(())
    } else {
        Err(Error::Memory)
    }
}
