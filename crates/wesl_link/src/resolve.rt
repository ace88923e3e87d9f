//! Linking a root with the modules that it reaches.
ghost use Rattle.std.specs.Prelude.{◌≡◌, [], true, false, IfOk, IfErr};
ghost use Rattle.wesl_tree_base.specs.Borrowed.{texts};
ghost use Rattle.wesl_tree_names.specs.Path.{Text, Path, path_view, is_relative};
ghost use Rattle.wesl_link_engine.specs.Asking.{lazily, eagerly, AnswersTheSame};
ghost use Rattle.wesl_link_engine.specs.Linking.{IsOrderFrom, RefusesRoot, IsFaultlessRoot, TellsMemory};
ghost use Rattle.wesl_link.specs.Keeping.{resolved};
ghost use Rattle.wesl_link.specs.Asking.{FindsRoot, TakesItsTurns};

use crate::resolutions::Resolutions;
use std::alloc::Global;
use wesl_link_engine::{LinkRequest, link_root};
use wesl_resolve_base::Resolver;
use wesl_tree::TranslationUnit;
use wesl_tree_names::{Diagnostic, ModulePath};

/// Links the root `unit`, which stands at `path`, with the modules that the names in `keep` and the const_asserts
/// reach, and no others (WESL, "Imports").
///
/// `resolver` hands out every module but the root, and means afterwards what it meant; no more than `max_modules` are
/// loaded, the root counted. Refused where binders of one name with different targets are alive together, where a name stands
/// for two things where it is used or where a look-up comes to it, where a module with such a name has more than 16 flags,
/// where the resolver refuses a path, where a look-up finds nothing or nothing that it may see, where there are more modules
/// than may be, and for want of memory. The diagnostic tells the module that has the two targets, or that lacks the name or
/// hides it, and no place in it; what a resolver's refusal tells is in its error.
pub fn resolve_lazy<R: Resolver>(
    alloc: Global,
    keep: &[&str],
    unit: TranslationUnit,
    path: &ModulePath,
    resolver: &mut R,
    max_modules: usize,
) -> Result<Resolutions, Diagnostic>
    requires ready { R.ready resolver.old }
    requires asked { is_relative (path_view path.now) ≡ false }
    ensures linked { IfOk result (FindsRoot R.Resolver resolver.old (lazily path.now keep.now max_modules) unit) }
    ensures order { IfOk result (λ r. IsOrderFrom (lazily path.now keep.now max_modules) unit (resolved r)) }
    ensures kept { IfOk result (λ r. (resolved r).kept ≡ texts keep.now) }
    ensures lazy { IfOk result (λ r. (resolved r).is_eager ≡ false) }
    ensures turns { IfOk result (TakesItsTurns (lazily path.now keep.now max_modules)) }
    ensures names { IfOk result (λ r. (p : Path) (n : Text) → (resolved r).names p n ≡ n) }
    ensures refused { IfErr result (RefusesRoot R.Resolver resolver.old (lazily path.now keep.now max_modules) unit) }
    ensures succeeds { IsFaultlessRoot R.Resolver resolver.old (lazily path.now keep.now max_modules) unit → IfErr result TellsMemory }
    ensures same { AnswersTheSame R.Resolver resolver.old resolver.new }
    ensures stays_ready { R.ready resolver.new }
{
    let lazy = LinkRequest {
        root: path,
        keep,
        is_eager: false,
        max_modules,
    };
    match link_root(alloc, &lazy, unit, resolver) {
        Ok(found) => Ok(Resolutions { found }),
        Err(diagnostic) => Err(diagnostic),
    }
}

/// Links the root `unit`, which stands at `path`, with the modules that it imports from or refers to, and those that they do,
/// and holds all that they declare (WESL, "Imports").
///
/// The resolver, the limit and the refusals are those of `resolve_lazy`.
pub fn resolve_eager<R: Resolver>(
    alloc: Global,
    unit: TranslationUnit,
    path: &ModulePath,
    resolver: &mut R,
    max_modules: usize,
) -> Result<Resolutions, Diagnostic>
    requires ready { R.ready resolver.old }
    requires asked { is_relative (path_view path.now) ≡ false }
    ensures linked { IfOk result (FindsRoot R.Resolver resolver.old (eagerly path.now max_modules) unit) }
    ensures order { IfOk result (λ r. IsOrderFrom (eagerly path.now max_modules) unit (resolved r)) }
    ensures kept { IfOk result (λ r. (resolved r).kept ≡ []) }
    ensures eager { IfOk result (λ r. (resolved r).is_eager ≡ true) }
    ensures turns { IfOk result (TakesItsTurns (eagerly path.now max_modules)) }
    ensures names { IfOk result (λ r. (p : Path) (n : Text) → (resolved r).names p n ≡ n) }
    ensures refused { IfErr result (RefusesRoot R.Resolver resolver.old (eagerly path.now max_modules) unit) }
    ensures succeeds { IsFaultlessRoot R.Resolver resolver.old (eagerly path.now max_modules) unit → IfErr result TellsMemory }
    ensures same { AnswersTheSame R.Resolver resolver.old resolver.new }
    ensures stays_ready { R.ready resolver.new }
{
    let eager = LinkRequest {
        root: path,
        keep: &[],
        is_eager: true,
        max_modules,
    };
    match link_root(alloc, &eager, unit, resolver) {
        Ok(whole) => Ok(Resolutions { found: whole }),
        Err(refusal) => Err(refusal),
    }
}
