//! From a bundle of texts to the text of its linked unit.
ghost use Rattle.std.specs.Prelude.{◌≡◌, ◌↔◌, false, IfOk, IfErr, map, string_bytes};
ghost use Rattle.wesl_tree_names.specs.Path.{path_view, is_relative};
ghost use Rattle.wesl_tree_names.specs.Errors.{IsBare};
ghost use Rattle.wesl_tree_names.specs.declared.errors.Error as error;
ghost use Rattle.wesl_tree_syntax.specs.Unit.{spelled};
ghost use Rattle.wesl_tree.specs.Translation.{unit_view};
ghost use Rattle.wesl_source_map.specs.BasicView.{items};
ghost use Rattle.wesl_scope_numbers.specs.Faithful.{IsFaithful};
ghost use Rattle.wesl_text_form.specs.Says.{TextSays};
ghost use Rattle.wesl_text_linked.specs.Linked.{IsValidFor};
ghost use Rattle.wesl_program_bundle.specs.Views.{bundle_view};
ghost use Rattle.wesl_text_program.specs.Answers.{AnswersBundle, AnswersParts, MapsTexts, RefusesBundle, RefusesParts, RefusesRequest};

use crate::request::request_of;
use crate::sources::TextSources;
use crate::validity::validation_of;
use std::alloc::Global;
use wesl_program::{BundleMangler, names, sources_of};
use wesl_program_bundle::{BuiltinNames, Bundle, Options};
use wesl_text_linked::{LinkedText, TextRefusal, TextRequest, linked_text};
use wesl_tree::{Diagnostic, Error, ModulePath, TranslationUnit};

/// The text of the unit to which the modules of a bundle of texts are linked, as the bundle asks for it.
///
/// # Errors
///
/// The fault of a module, of the link, of a name of the linked unit, or of its text; and want of memory.
pub(crate) fn text_of_bundle(alloc: Global, bundle: Bundle) -> Result<LinkedText, TextRefusal>
    requires fixed { is_relative (path_view bundle.root) ≡ false }
    ensures linked { IfOk result (AnswersBundle (bundle_view bundle.entry)) }
    ensures refused { IfErr result (RefusesBundle (bundle_view bundle.entry)) }
{
    let builtins = bundle.builtins;
    let Ok(sources) = sources_of(alloc, bundle.modules, bundle.packages) else {
        return Err(TextRefusal::Link(memory_wanted()));
    };
    let sources = TextSources {
        sources: &sources,
        features: bundle.features.as_ref(),
    };
    text_of_sources(
        alloc,
        sources,
        &bundle.root,
        &bundle.keep,
        bundle.options,
        builtins,
    )
}

// The text of the unit to which the modules of a resolver are linked from the root.
fn text_of_sources(
    alloc: Global,
    sources: TextSources<'_, '_>,
    root: &ModulePath,
    keep: &[String],
    options: Options,
    builtins: Option<BuiltinNames>,
) -> Result<LinkedText, TextRefusal>
    requires rooted { is_relative (path_view root.now) ≡ false }
    ensures linked { IfOk result (AnswersParts sources.entry root.now (map string_bytes keep.now) options builtins) }
    ensures refused { IfErr result (RefusesParts sources.entry root.now (map string_bytes keep.now) options builtins) }
{
    let Ok(keep) = names(alloc, keep) else {
        return Err(TextRefusal::Link(memory_wanted()));
    };
    let (validation, builtins) = validation_of(alloc, builtins);
    let request = request_of(root, &keep, options, validation, &builtins);
    text_of_request(
        alloc,
        &request,
        sources,
        BundleMangler {
            naming: options.mangler,
        },
    )
}

// The same, of what is asked for.
fn text_of_request(
    alloc: Global,
    request: &TextRequest<'_>,
    sources: TextSources<'_, '_>,
    mangler: BundleMangler,
) -> Result<LinkedText, TextRefusal>
    requires rooted { is_relative (path_view request.now.link.root.now) ≡ false }
    ensures linked { IfOk result (λ t. MapsTexts sources.entry request.now mangler (items t.linked.map) (unit_view t.linked.unit)) }
    ensures valid { IfOk result (λ t. IsValidFor request.now (unit_view t.linked.unit)) }
    ensures clash { IfOk result (λ t. (t.linked.clash ≡ false) ↔ IsFaithful (unit_view t.linked.unit)) }
    ensures said { IfOk result (λ t. TextSays (string_bytes t.text) (spelled (unit_view t.linked.unit))) }
    ensures refused { IfErr result (RefusesRequest sources.entry request.now mangler) }
{
    let mut sources = sources;
    match sources.left_at(alloc, request.link.root) {
        Ok(unit) => linked_text(alloc, request, unit, &mut sources, mangler),
        Err(refusal) => Err(TextRefusal::Link(Diagnostic::of(Error::of_resolve(refusal)))),
    }
}

// Want of memory.
fn memory_wanted() -> Diagnostic
    ensures { IsBare error.Memory result }
{
    Diagnostic::of(Error::Memory)
}
