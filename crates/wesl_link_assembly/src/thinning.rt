//! Of equal adjacent directives one stays.
ghost use Rattle.std.specs.Prelude.{◌≡◌, ◌↔◌, ◌++◌, ◌∷◌, [], List, Some, IsTrue, IfOk, IfErr, OnOk, length, map};
ghost use Rattle.wesl_tree_names.specs.Path.{Text};
ghost use Rattle.wesl_tree_names.specs.declared.errors.Error as error;
ghost use Rattle.wesl_tree_syntax.specs.Tree.{TreeOf, tree_below, directive_node};
ghost use Rattle.wesl_tree_syntax.specs.View.{placed, directive_view, texts_of};
ghost use Rattle.wesl_tree.specs.Translation.{unit_view};
ghost use Rattle.wesl_link_assembly.specs.Directives.{AreThinned, all_directives, directives_of};
ghost use Rattle.wesl_link_assembly.specs.Thinning.{told, spelled_directive, IsThinning};

use crate::directives::{Directives, are_equal};
use std::alloc::Global;
use wesl_tree::TranslationUnit;
use wesl_tree_names::{Error, Names};
use wesl_tree_syntax::GlobalDirectiveNode;

/// A directive that was met, with the names of its module.
#[derive(Clone, Copy)]
struct Met<'a> {
    names: &'a Names,
    directive: &'a GlobalDirectiveNode,
}

/// The directives that stay so far, and the one that was met last.
#[derive(Drop)]
struct Thinning<'a> {
    directives: Directives,
    last: Option<Met<'a>>,
}

impl<'a> Thinning<'a> {
    /// Whether the directive equals the one that was met last.
    fn is_again(
        &self,
        alloc: Global,
        names: &Names,
        directive: &GlobalDirectiveNode,
    ) -> Result<bool, Error>
        ensures again { IfOk result (λ same. IsTrue same ↔ (told self.now.last ≡ Some (spelled_directive names.now directive.now))) }
        ensures refused { IfErr result (λ e. e ≡ error.Memory) }
    {
        match self.last {
            None => Ok(false),
            Some(met) => are_equal(alloc, met.names, met.directive, names, directive),
        }
    }

    /// One more directive is met.
    fn add(
        &mut self,
        alloc: Global,
        names: &'a Names,
        directive: &'a GlobalDirectiveNode,
    ) -> Result<(), Error>
        requires below { IsTrue (tree_below (length names.now) (placed directive_view directive_node directive.now)) }
        ensures thinned { OnOk result ((all : List (TreeOf Text)) → IsThinning all self.old → IsThinning (all ++ spelled_directive names.now directive.now ∷ []) self.new) }
        ensures refused { IfErr result (λ e. e ≡ error.Memory) }
    {
        if !self.is_again(alloc, names, directive)? {
            self.directives.push(alloc, names, directive)?;
        }
        self.last = Some(Met { names, directive });
        Ok(())
    }

    /// The directives of a module are met.
    fn add_all(&mut self, alloc: Global, unit: &'a TranslationUnit) -> Result<(), Error>
        ensures thinned { OnOk result ((all : List (TreeOf Text)) → IsThinning all self.old → IsThinning (all ++ directives_of (unit_view unit.now)) self.new) }
        ensures refused { IfErr result (λ e. e ≡ error.Memory) }
    {
        for directive in unit.global_directives() {
            self.add(alloc, unit.names(), directive)?;
        }
        Ok(())
    }
}

/// Copies of the directives of modules in their order, of equal adjacent ones one, and the names of their identifiers, in
/// document order. All names in directives are words. Refused for want of memory alone.
pub fn thinned_directives(alloc: Global, units: &[&TranslationUnit]) -> Result<Directives, Error>
    ensures thinned { IfOk result (λ found. AreThinned (all_directives (map (λ u. unit_view u.now) units.now)) found.nodes (texts_of found.words)) }
    ensures refused { IfErr result (λ e. e ≡ error.Memory) }
{
    let mut thinning = Thinning {
        directives: Directives::new(alloc),
        last: None,
    };
    for unit in units {
        thinning.add_all(alloc, unit)?;
    }
    Ok(thinning.directives)
}
