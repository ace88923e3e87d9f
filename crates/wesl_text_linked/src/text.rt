//! The text of a linked unit.
ghost use Rattle.std.specs.Prelude.{◌≡◌, ◌↔◌, false, IfOk, IfErr, string_bytes};
ghost use Rattle.wesl_tree_names.specs.Path.{path_view, is_relative};
ghost use Rattle.wesl_tree_syntax.specs.Unit.{spelled};
ghost use Rattle.wesl_tree.specs.Translation.{unit_view};
ghost use Rattle.wesl_text_form.specs.Says.{TextSays};
ghost use Rattle.wesl_scope_numbers.specs.Faithful.{IsFaithful};
ghost use Rattle.wesl_link_engine.specs.Asking.{AnswersTheSame};
ghost use Rattle.wesl_text_linked.specs.Linked.{IsLinkedUnit, IsValidFor};
ghost use Rattle.wesl_text_linked.specs.Texts.{RefusesName, RefusesText};

use crate::request::TextRequest;
use crate::unit::{LinkedUnit, linked_unit};
use std::alloc::Global;
use wesl_mangle_forms::Mangler;
use wesl_resolve_base::Resolver;
use wesl_text::{PrintFault, print_unit};
use wesl_text_laws::law_of_linked_text;
use wesl_tree::{Diagnostic, TranslationUnit};

/// A linked unit and the text that says it.
#[derive(Drop)]
pub struct LinkedText {
    /// The text.
    pub text: String,
    /// The unit.
    pub linked: LinkedUnit,
}

/// Why there is no text.
#[derive(Drop)]
pub enum TextRefusal {
    /// There is no linked unit, or a name of it is not as is asked.
    Link(Diagnostic),
    /// The linked unit has no text.
    Text(PrintFault),
}

/// The text of the unit to which the modules that a resolver hands out are linked from a root, whose unit is given, under the
/// names of a mangler.
///
/// # Errors
///
/// The fault of the link, or of a name of the linked unit where that is asked; why no text says that unit; and want of memory.
pub fn linked_text<R: Resolver, M: Mangler + Drop>(
    alloc: Global,
    request: &TextRequest<'_>,
    root: TranslationUnit,
    resolver: &mut R,
    mangler: M,
) -> Result<LinkedText, TextRefusal>
    requires ready { R.ready resolver.old }
    requires asked { is_relative (path_view request.now.link.root.now) ≡ false }
    ensures linked { IfOk result (λ t. IsLinkedUnit R.Resolver resolver.old (M.name_of mangler) request.now root t.linked) }
    ensures valid { IfOk result (λ t. IsValidFor request.now (unit_view t.linked.unit)) }
    ensures clash { IfOk result (λ t. (t.linked.clash ≡ false) ↔ IsFaithful (unit_view t.linked.unit)) }
    ensures said { IfOk result (λ t. TextSays (string_bytes t.text) (spelled (unit_view t.linked.unit))) }
    ensures refused { IfErr result (RefusesText R.Resolver resolver.old (M.name_of mangler) request.now root) }
    ensures texts { IfErr result (RefusesName R.Resolver resolver.old (M.name_of mangler) request.now root) }
    ensures same { AnswersTheSame R.Resolver resolver.old resolver.new }
    ensures stays_ready { R.ready resolver.new }
{
    law_of_linked_text();
    match linked_unit(alloc, request, root, resolver, mangler) {
        Ok(linked) => match print_unit(alloc, &linked.unit) {
            Ok(text) => Ok(LinkedText { text, linked }),
            Err(fault) => Err(TextRefusal::Text(fault)),
        },
        Err(diagnostic) => Err(TextRefusal::Link(diagnostic)),
    }
}
