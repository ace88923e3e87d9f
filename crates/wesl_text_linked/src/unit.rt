//! The linked unit that a text is printed of.
ghost use Rattle.std.specs.Prelude.{◌≡◌, ◌↔◌, false, IfOk, IfErr};
ghost use Rattle.wesl_tree_names.specs.Path.{path_view, is_relative};
ghost use Rattle.wesl_tree.specs.Translation.{unit_view};
ghost use Rattle.wesl_scope_numbers.specs.Faithful.{IsFaithful};
ghost use Rattle.wesl_link.specs.Keeping.{resolved};
ghost use Rattle.wesl_link_engine.specs.Asking.{AnswersTheSame};
ghost use Rattle.wesl_text_linked.specs.Linked.{IsLinkedUnit, IsNamedUnit, IsValidFor, RefusesNamed, RefusesUnit};

use crate::linking::resolutions;
use crate::naming::named;
use crate::request::TextRequest;
use crate::validity::check;
use std::alloc::Global;
use wesl_link::Resolutions;
use wesl_mangle_forms::Mangler;
use wesl_resolve_base::Resolver;
use wesl_scope::names_clash;
use wesl_source_map::BasicSourceMap;
use wesl_tree::{Diagnostic, TranslationUnit};

/// A linked unit, what its names stand for, and whether they would be read otherwise than meant.
#[derive(Drop)]
pub struct LinkedUnit {
    /// The unit.
    pub unit: TranslationUnit,
    /// The items that its names stand for.
    pub map: BasicSourceMap,
    /// Whether its names clash.
    pub clash: bool,
}

/// The unit to which the modules that a resolver hands out are linked from a root, whose unit is given, under the names of a
/// mangler.
///
/// # Errors
///
/// The fault of the link, or of a name of the linked unit where that is asked; and want of memory.
pub fn linked_unit<R: Resolver, M: Mangler + Drop>(
    alloc: Global,
    request: &TextRequest<'_>,
    root: TranslationUnit,
    resolver: &mut R,
    mangler: M,
) -> Result<LinkedUnit, Diagnostic>
    requires ready { R.ready resolver.old }
    requires asked { is_relative (path_view request.now.link.root.now) ≡ false }
    ensures linked { IfOk result (IsLinkedUnit R.Resolver resolver.old (M.name_of mangler) request.now root) }
    ensures valid { IfOk result (λ l. IsValidFor request.now (unit_view l.unit)) }
    ensures clash { IfOk result (λ l. (l.clash ≡ false) ↔ IsFaithful (unit_view l.unit)) }
    ensures refused { IfErr result (RefusesUnit R.Resolver resolver.old (M.name_of mangler) request.now root) }
    ensures same { AnswersTheSame R.Resolver resolver.old resolver.new }
    ensures stays_ready { R.ready resolver.new }
{
    match resolutions(alloc, &request.link, root, resolver) {
        Ok(found) => named_unit(alloc, request, found, mangler),
        Err(diagnostic) => Err(diagnostic),
    }
}

// The linked unit of what was found.
fn named_unit<M: Mangler + Drop>(
    alloc: Global,
    request: &TextRequest<'_>,
    found: Resolutions,
    mangler: M,
) -> Result<LinkedUnit, Diagnostic>
    ensures named { IfOk result (IsNamedUnit (M.name_of mangler) request.now (resolved found)) }
    ensures valid { IfOk result (λ l. IsValidFor request.now (unit_view l.unit)) }
    ensures clash { IfOk result (λ l. (l.clash ≡ false) ↔ IsFaithful (unit_view l.unit)) }
    ensures refused { IfErr result (RefusesNamed (M.name_of mangler) request.now (resolved found)) }
{
    let made = named(
        alloc,
        found,
        request.link.root,
        mangler,
        request.mangle_root,
    )?;
    if let Err(diagnostic) = check(alloc, &made.unit, request.builtins, request.validation) {
        return Err(diagnostic);
    }
    let clash = names_clash(alloc, &made.unit)?;
    Ok(LinkedUnit {
        unit: made.unit,
        map: made.map,
        clash,
    })
}
