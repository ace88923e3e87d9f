//! Linking under features.
ghost use Rattle.std.specs.Prelude.{◌≡◌, ◌↔◌, Result, false, IfOk, IfErr, option_copied};
ghost use Rattle.wesl_tree_names.specs.declared.errors.Error as error;
ghost use Rattle.wesl_tree.specs.declared.unit.TranslationUnit.{TranslationUnit};
ghost use Rattle.wesl_tree_names.specs.Path.{Text, Path, path_view, is_relative};
ghost use Rattle.wesl_cond.specs.Conditioned.{IsConditioned};
ghost use Rattle.wesl_link_engine.specs.Asking.{request_view, kept_of, AnswersTheSame};
ghost use Rattle.wesl_link.specs.Keeping.{resolved};
ghost use Rattle.wesl_link.specs.Asking.{FindsLink, FindsLinkLeft, TellsRefusal, TellsRefusalOfLeft, TakesItsTurns};

use crate::resolutions::Resolutions;
use std::alloc::Global;
use wesl_cond::{Features, condition};
use wesl_link_engine::{LinkRequest, link_root};
use wesl_resolve::Preprocessor;
use wesl_resolve_base::Resolver;
use wesl_tree::{Diagnostic, Error, TranslationUnit};

/// Links the module at the request's root with the modules that its kept names and the const_asserts reach, and no others, each
/// as the features leave it, the root too (WESL, "ConditionalTranslation" and "Imports"). Without features no condition is
/// judged. An eager link asks for all that the modules declare, and the kept names count for nothing.
///
/// Refused where the resolver refuses a path, where a fault of a condition stands in a unit, where a link is refused, and
/// for want of memory. The diagnostic tells the module that has two targets of a name, or that lacks a name or hides it, and
/// no place in it; what a resolver's refusal tells is in its error.
pub fn link_under<R: Resolver + Drop>(
    alloc: Global,
    request: &LinkRequest<'_>,
    resolver: R,
    features: Option<&Features>,
) -> Result<Resolutions, Diagnostic>
    requires ready { R.ready resolver }
    requires asked { is_relative (path_view request.now.root.now) ≡ false }
    ensures linked { IfOk result (FindsLinkLeft R.Resolver resolver (option_copied features.entry) (request_view request.now)) }
    ensures kept { IfOk result (λ r. (resolved r).kept ≡ kept_of (request_view request.now)) }
    ensures eager { IfOk result (λ r. (resolved r).is_eager ≡ request.now.is_eager) }
    ensures turns { IfOk result (TakesItsTurns (request_view request.now)) }
    ensures names { IfOk result (λ r. (p : Path) (n : Text) → (resolved r).names p n ≡ n) }
    ensures refused { IfErr result (TellsRefusalOfLeft R.Resolver resolver (option_copied features.entry) (request_view request.now)) }
{
    let judge = |unit: TranslationUnit|
        ensures { IsConditioned (option_copied features.entry) unit result }
    { condition(alloc, unit, features) };
    link_judged(alloc, request, resolver, judge, features)
}

// Links what a function leaves of the units that are handed out.
fn link_judged<R: Resolver + Drop, F: Fn(TranslationUnit) -> Result<TranslationUnit, Error> + Drop>(
    alloc: Global,
    request: &LinkRequest<'_>,
    resolver: R,
    judge: F,
    features: Option<&Features>,
) -> Result<Resolutions, Diagnostic>
    requires ready { R.ready resolver }
    requires asked { is_relative (path_view request.now.root.now) ≡ false }
    requires callable { F.IsAlwaysCallable judge }
    requires judges { (given : TranslationUnit) (answer : Result TranslationUnit error.Error) → F.post judge given answer ↔ IsConditioned (option_copied features) given answer }
    ensures linked { IfOk result (FindsLinkLeft R.Resolver resolver (option_copied features.entry) (request_view request.now)) }
    ensures kept { IfOk result (λ r. (resolved r).kept ≡ kept_of (request_view request.now)) }
    ensures eager { IfOk result (λ r. (resolved r).is_eager ≡ request.now.is_eager) }
    ensures turns { IfOk result (TakesItsTurns (request_view request.now)) }
    ensures names { IfOk result (λ r. (p : Path) (n : Text) → (resolved r).names p n ≡ n) }
    ensures refused { IfErr result (TellsRefusalOfLeft R.Resolver resolver (option_copied features.entry) (request_view request.now)) }
{
    let mut judged = Preprocessor::new(resolver, judge);
    link_at(alloc, request, &mut judged)
}

/// Links the module at the request's root as `link_under` does, with the units as the resolver hands them out, the root's
/// too: no condition is judged.
///
/// The resolver means afterwards what it meant, whether the link is refused or not. Refused where the resolver refuses a
/// path, where a link is refused, and for want of memory, as `link_under` tells it.
pub fn link_at<R: Resolver>(
    alloc: Global,
    request: &LinkRequest<'_>,
    resolver: &mut R,
) -> Result<Resolutions, Diagnostic>
    requires ready { R.ready resolver.old }
    requires asked { is_relative (path_view request.now.root.now) ≡ false }
    ensures linked { IfOk result (FindsLink R.Resolver resolver.old (request_view request.now)) }
    ensures kept { IfOk result (λ r. (resolved r).kept ≡ kept_of (request_view request.now)) }
    ensures eager { IfOk result (λ r. (resolved r).is_eager ≡ request.now.is_eager) }
    ensures turns { IfOk result (TakesItsTurns (request_view request.now)) }
    ensures names { IfOk result (λ r. (p : Path) (n : Text) → (resolved r).names p n ≡ n) }
    ensures refused { IfErr result (TellsRefusal R.Resolver resolver.old (request_view request.now)) }
    ensures same { AnswersTheSame R.Resolver resolver.old resolver.new }
    ensures stays_ready { R.ready resolver.new }
{
    match resolver.resolve_module(alloc, request.root) {
        Ok(unit) => match link_root(alloc, request, unit, resolver) {
            Ok(found) => Ok(Resolutions { found }),
            Err(diagnostic) => Err(diagnostic),
        },
        Err(fault) => Err(Diagnostic::of(Error::of_resolve(fault))),
    }
}
