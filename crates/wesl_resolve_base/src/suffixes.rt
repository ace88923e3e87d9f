//! Paths without their first components, and what resolvers answer there.
ghost use Rattle.std.specs.Prelude.{◌≡◌, ◌≤◌, IfOk, IfErr, IfSome, length, option_map, string_bytes};
ghost use Rattle.wesl_tree_names.specs.Path.{path_view};
ghost use Rattle.wesl_tree_names.specs.Errors.{OrMemory};
ghost use Rattle.wesl_tree_names.specs.declared.errors.ResolveError as resolve_error;
ghost use Rattle.wesl_tree_syntax.specs.Unit.{spelled};
ghost use Rattle.wesl_tree.specs.Translation.{unit_view};
ghost use Rattle.wesl_resolve_base.specs.Resolver.{MeansTheSame};
ghost use Rattle.wesl_resolve_base.specs.Suffixes.{suffix};

use crate::refusals::made;
use crate::resolver::Resolver;
use std::alloc::Global;
use wesl_tree::TranslationUnit;
use wesl_tree_names::{ModulePath, ResolveError};

/// The number of components of a path.
pub fn depth(path: &ModulePath) -> usize
    ensures { result ≡ length (path_view path.now).components }
{
    path.components.as_slice().len()
}

/// The path of the components after the first `count`, from the root; none for want of memory.
fn path_after(alloc: Global, path: &ModulePath, count: usize) -> Option<ModulePath>
    requires { count ≤ length (path_view path.now).components }
    ensures { IfSome result (λ p. path_view p ≡ suffix count (path_view path.now)) }
{
    made(ModulePath::new_root(alloc).join(alloc, &path.components[count..]))
}

/// The source that a resolver gives at the components after the first `count`.
pub fn source_after<R: Resolver>(
    resolver: &mut R,
    alloc: Global,
    path: &ModulePath,
    count: usize,
) -> Result<String, ResolveError>
    requires asked { R.ready resolver.old }
    requires within { count ≤ length (path_view path.now).components }
    ensures given { IfOk result (λ text. R.source resolver.old (suffix count (path_view path.now)) (string_bytes text)) }
    ensures refused { IfErr result (OrMemory (R.lacks resolver.old (suffix count (path_view path.now)))) }
    ensures same { MeansTheSame R.hands R.refuses R.source R.lacks R.shown resolver.old resolver.new }
    ensures stays_ready { R.ready resolver.new }
{
    match path_after(alloc, path, count) {
        Some(after) => resolver.resolve_source(alloc, &after),
        None => Err(ResolveError::Memory),
    }
}

/// The unit that a resolver hands out at the components after the first `count`.
pub fn module_after<R: Resolver>(
    resolver: &mut R,
    alloc: Global,
    path: &ModulePath,
    count: usize,
) -> Result<TranslationUnit, ResolveError>
    requires asked { R.ready resolver.old }
    requires within { count ≤ length (path_view path.now).components }
    ensures handed { IfOk result (λ u. R.hands resolver.old (suffix count (path_view path.now)) (spelled (unit_view u))) }
    ensures refused { IfErr result (OrMemory (R.refuses resolver.old (suffix count (path_view path.now)))) }
    ensures same { MeansTheSame R.hands R.refuses R.source R.lacks R.shown resolver.old resolver.new }
    ensures stays_ready { R.ready resolver.new }
{
    match path_after(alloc, path, count) {
        Some(after) => resolver.resolve_module(alloc, &after),
        None => Err(ResolveError::Memory),
    }
}

/// The name by which a resolver shows the components after the first `count`.
pub fn name_after<R: Resolver>(
    resolver: &R,
    alloc: Global,
    path: &ModulePath,
    count: usize,
) -> Result<Option<String>, ResolveError>
    requires asked { R.ready resolver.now }
    requires within { count ≤ length (path_view path.now).components }
    ensures named { IfOk result (λ name. R.shown resolver.now (suffix count (path_view path.now)) (option_map string_bytes name)) }
    ensures refused { IfErr result (λ e. e ≡ resolve_error.Memory) }
{
    match path_after(alloc, path, count) {
        Some(after) => resolver.display_name(alloc, &after),
        None => Err(ResolveError::Memory),
    }
}
