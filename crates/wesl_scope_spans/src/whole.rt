//! The spans of the identifiers of a whole module.
ghost use Rattle.std.specs.Prelude.{◌≡◌, IfOk, length};
ghost use Rattle.wesl_tree_syntax.specs.Unit.{trees_of};
ghost use Rattle.wesl_tree.specs.Translation.{unit_view};
ghost use Rattle.wesl_scope_occurrences.specs.Occurrences.{occurrences};
ghost use Rattle.wesl_scope_spans.specs.Spans.{spans};

use crate::declarations::in_declarations;
use crate::imports::{in_directives, in_imports};
use crate::places::Places;
use std::alloc::{AllocError, Global};
use wesl_tree::{Span, TranslationUnit};

/// Of each identifier of a module the span of the innermost node round it, in document order: in step with what
/// `wesl_scope_occurrences::occurrences` tells of them. Refused for want of memory alone.
pub fn identifier_spans(alloc: Global, unit: &TranslationUnit) -> Result<Vec<Span>, AllocError>
    ensures innermost { IfOk result (λ found. found.items ≡ spans (trees_of (unit_view unit.now))) }
    ensures in_step { IfOk result (λ found. length found.items ≡ length (occurrences (trees_of (unit_view unit.now)))) }
{
    let mut places = Places::new(alloc);
    in_imports(unit.imports(), &mut places);
    in_directives(unit.global_directives(), &mut places);
    in_declarations(unit.global_declarations(), &mut places);
    places.end()
}
