//! What a link of a given root finds.
ghost use Rattle.std.specs.Prelude.{◌≡◌, false, IfOk, IfErr};
ghost use Rattle.wesl_tree_names.specs.Path.{path_view, is_relative};
ghost use Rattle.wesl_link_engine.specs.Asking.{request_view, AnswersTheSame};
ghost use Rattle.wesl_link_engine.specs.Linking.{RefusesRoot};
ghost use Rattle.wesl_link.specs.Keeping.{resolved};
ghost use Rattle.wesl_text_linked.specs.Linked.{IsFound};

use std::alloc::Global;
use wesl_link::{LinkRequest, Resolutions, resolve_eager, resolve_lazy};
use wesl_resolve_base::Resolver;
use wesl_tree::{Diagnostic, TranslationUnit};

/// Links the root, whose unit this is, as is asked.
pub(crate) fn resolutions<R: Resolver>(
    alloc: Global,
    request: &LinkRequest<'_>,
    unit: TranslationUnit,
    resolver: &mut R,
) -> Result<Resolutions, Diagnostic>
    requires ready { R.ready resolver.old }
    requires asked { is_relative (path_view request.now.root.now) ≡ false }
    ensures found { IfOk result (λ r. IsFound R.Resolver resolver.old (request_view request.now) unit (resolved r)) }
    ensures refused { IfErr result (RefusesRoot R.Resolver resolver.old (request_view request.now) unit) }
    ensures same { AnswersTheSame R.Resolver resolver.old resolver.new }
    ensures stays_ready { R.ready resolver.new }
{
    let LinkRequest {
        root,
        keep,
        is_eager,
        max_modules,
    } = *request;
    if is_eager {
        resolve_eager(alloc, unit, root, resolver, max_modules)
    } else {
        resolve_lazy(alloc, keep, unit, root, resolver, max_modules)
    }
}
