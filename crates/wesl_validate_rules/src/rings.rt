//! Rings of declarations.
ghost use Rattle.std.specs.Prelude.{◌≡◌, IfOk, IfSome, IfNone};
ghost use Rattle.wesl_tree_syntax.specs.Unit.{UnitView};
ghost use Rattle.wesl_scope_strip.specs.Declarations.{all};
ghost use Rattle.wesl_scope_occurrences.specs.Identified.{identified};
ghost use Rattle.wesl_validate_rules.specs.Valid.{spelling, IsAcyclic};
ghost use Rattle.wesl_validate_rules.specs.Faults.{IsCycle};

use crate::graph::ring;
use crate::steps::steps_of;
use std::alloc::{AllocError, Global};
use wesl_scope_occurrences::Identifiers;

/// The number of a declaration that reaches itself, and the number of the last one on the way, if there is one.
///
/// `found` are the identifiers of a module. It goes over them and over the steps between their numbers once. Refused
/// for want of memory alone.
pub fn cycle(alloc: Global, found: &Identifiers<'_>) -> Result<Option<(usize, usize)>, AllocError>
    ensures cycle { IfOk result (λ r. IfSome r (λ p. (u : UnitView) → identified found.now ≡ all u → IsCycle u (spelling u p.0) (spelling u p.1))) }
    ensures none { IfOk result (λ r. IfNone r ((u : UnitView) → identified found.now ≡ all u → IsAcyclic u)) }
{
    let graph = steps_of(alloc, found)?;
    ring(alloc, &graph)
}
