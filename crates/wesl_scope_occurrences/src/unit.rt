//! The walk over a whole module.
ghost use Rattle.std.specs.Prelude.{◌≡◌, IfOk, length, map, true};
ghost use Rattle.wesl_tree_names.specs.Path.{path_view};
ghost use Rattle.wesl_tree_syntax.specs.Tree.{forest_below};
ghost use Rattle.wesl_tree_syntax.specs.Unit.{trees_of, forest_of_unit};
ghost use Rattle.wesl_tree.specs.Translation.{unit_view};
ghost use Rattle.wesl_scope_occurrences.specs.Outer.{outers};
ghost use Rattle.wesl_scope_occurrences.specs.Events.{events, paths_met};

use crate::handler::Handler;
use crate::here::Here;
use crate::walk::Walk;
use std::alloc::{AllocError, Global};
use wesl_tree::{ModulePath, TranslationUnit};

/// What a walk over a module leaves.
#[derive(Drop)]
pub struct Walked<'a, H> {
    /// the handler that was told what the walk met
    pub handler: H,
    /// the paths of the references that have one, in document order
    pub paths: Vec<&'a ModulePath>,
    /// of each block, by its number, the number of the one round it; the module's block is 0
    pub outer: Vec<usize>,
}

/// Walks over a module, and tells the handler what it meets: identifiers, blocks that open and close, declarations that
/// begin and end, in document order (WGSL, "Declaration and Scope"). Refused for want of memory alone.
pub fn walk_unit<'a, H: Handler + Drop>(
    alloc: Global,
    unit: &'a TranslationUnit,
    handler: H,
) -> Result<Walked<'a, H>, AllocError>
    ensures told { IfOk result (λ walked. H.after (events (trees_of (unit_view unit.now))) handler walked.handler) }
    ensures outer { IfOk result (λ walked. walked.outer.items ≡ outers (trees_of (unit_view unit.now))) }
    ensures named { IfOk result (λ walked. forest_below (length (unit_view unit.now).names) (forest_of_unit (trees_of (unit_view unit.now))) ≡ true) }
    ensures paths { IfOk result (λ walked. map (λ p. path_view p.now) walked.paths.items ≡ paths_met (events (trees_of (unit_view unit.now)))) }
{
    let here = Here::outermost();
    let mut walk = Walk::new(alloc, handler);
    walk.imports(&here, unit.imports());
    walk.directives(&here, unit.global_directives());
    walk.globals(&here, unit.global_declarations());
    if walk.is_refused {
        return Err(AllocError);
    }
    Ok(Walked {
        handler: walk.handler,
        paths: walk.paths,
        outer: walk.outer,
    })
}
