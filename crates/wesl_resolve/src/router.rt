//! A resolver that sends each path to one of several others.
ghost use Rattle.std.specs.Prelude.{◌≡◌, ◌++◌, ◌∷◌, [], false, OnOk, OnErr, IfOk, IfErr, Some, None, string_bytes};
ghost use Rattle.wesl_tree_names.specs.Path.{path_view, is_relative};
ghost use Rattle.wesl_tree_names.specs.Errors.{OrMemory};
ghost use Rattle.wesl_tree_names.specs.declared.errors.Error as error;
ghost use Rattle.wesl_tree_syntax.specs.Unit.{spelled};
ghost use Rattle.wesl_tree.specs.Translation.{unit_view};
ghost use Rattle.wesl_resolve.specs.Router.{IsRoute, AllReady};

use std::alloc::Global;
use wesl_resolve_base::{Resolver, depth, module_after, name_after, not_found, source_after};
use wesl_tree::TranslationUnit;
use wesl_tree_names::{Error, ModulePath, ResolveError};

/// The place of the mount that takes the path.
fn route<B>(mounts: &[(ModulePath, B)], path: &ModulePath) -> Option<usize>
    ensures { IsRoute mounts.now (path_view path.now) result }
{
    let mut best: Option<(usize, usize)> = None;
    for (place, mount) in mounts.iter().enumerate() {
        if path.starts_with(&mount.0) {
            let len = depth(&mount.0);
            match best {
                Some((_, longest)) if len < longest => {}
                _ => best = Some((place, len)),
            }
        }
    }
    match best {
        Some((place, _)) => Some(place),
        None => None,
    }
}

/// Resolvers mounted at prefixes of paths, and one for the paths that no prefix begins.
///
/// A path goes to the mount with the longest prefix that begins it, of those with equally long ones the last. The
/// resolver is asked for the components after the prefix, as a path from the root. What no mount takes goes to the
/// fallback, whole; without one it is not found.
pub struct Router<B = Box<dyn Resolver + Drop>> {
    mount_points: Vec<(ModulePath, B)>,
    fallback: Option<B>,
}

// By hand, so that it is proved once: a derived one is proved in each crate that lets go of a value.
impl<B: Drop> Drop for Router<B> {
    fn drop(self) {
        let Router {
            mount_points: _,
            fallback: _,
        } = self;
    }
}

impl<B: Resolver + Drop> Router<B> {
    ghost use Rattle.wesl_resolve.specs.Held.{mounts_of, fallback_of};

    /// A router without mounts and without a fallback. It takes no memory.
    pub fn new(alloc: Global) -> Router<B>
        ensures mounts { mounts_of result ≡ [] }
        ensures fallback { fallback_of result ≡ None }
        ensures ready { AllReady B.ready (mounts_of result) (fallback_of result) }
    {
        Router {
            mount_points: Vec::new(alloc),
            fallback: None,
        }
    }

    /// Mounts a resolver at a prefix, which is not relative. Refused for want of memory alone, which leaves the
    /// mounts as they were.
    pub fn mount_resolver(&mut self, prefix: ModulePath, resolver: B) -> Result<(), Error>
        requires { is_relative (path_view prefix) ≡ false }
        ensures mounted { OnOk result (mounts_of self.new ≡ mounts_of self.old ++ (prefix, resolver) ∷ []) }
        ensures kept { OnErr result (mounts_of self.new ≡ mounts_of self.old) }
        ensures fallback { fallback_of self.new ≡ fallback_of self.old }
        ensures ready { AllReady B.ready (mounts_of self.old) (fallback_of self.old) → B.ready resolver
            → AllReady B.ready (mounts_of self.new) (fallback_of self.new) }
        ensures refused { IfErr result (λ e. e ≡ error.Memory) }
    {
        self.mount_points.push((prefix, resolver))?;
        Ok(())
    }

    /// Sets the resolver of the paths that no prefix begins, in place of an earlier one.
    pub fn mount_fallback_resolver(&mut self, resolver: B)
        ensures mounts { mounts_of self.new ≡ mounts_of self.old }
        ensures fallback { fallback_of self.new ≡ Some resolver }
        ensures ready { AllReady B.ready (mounts_of self.old) (fallback_of self.old) → B.ready resolver
            → AllReady B.ready (mounts_of self.new) (fallback_of self.new) }
    {
        self.fallback = Some(resolver);
    }
}

impl<B: Resolver> Resolver for Router<B> {
    ghost use Rattle.wesl_resolve.specs.Held.{mounts_of, fallback_of};
    ghost use Rattle.wesl_resolve.specs.Router.{AllReady};
    ghost use Rattle.wesl_resolve.specs.RouterMeaning.{router_hands, router_refuses, router_source, router_lacks, router_shown, EachMeansTheSame, ReachesOne, RouterMeans};

    ghost ready = { λ r. AllReady B.ready (mounts_of r) (fallback_of r) };

    ghost hands = { router_hands B.hands };

    ghost refuses = { router_refuses B.refuses };

    ghost source = { router_source B.source };

    ghost lacks = { router_lacks B.lacks };

    ghost shown = { router_shown B.shown };

    /// The source that the resolver which the path goes to gives. No other resolver is asked.
    fn resolve_source(&mut self, alloc: Global, path: &ModulePath) -> Result<String, ResolveError>
        requires asked { AllReady B.ready (mounts_of self.old) (fallback_of self.old) }
        requires rooted { is_relative (path_view path.now) ≡ false }
        ensures given { IfOk result (λ text. router_source B.source self.old (path_view path.now) (string_bytes text)) }
        ensures refused { IfErr result (OrMemory (router_lacks B.lacks self.old (path_view path.now))) }
        ensures same { RouterMeans B.hands B.refuses B.source B.lacks B.shown self.old self.new }
        ensures stays_ready { AllReady B.ready (mounts_of self.new) (fallback_of self.new) }
        ensures each { EachMeansTheSame B.hands B.refuses B.source B.lacks B.shown self.old self.new }
        ensures others { ReachesOne (path_view path.now) self.old self.new }
    {
        match route(&self.mount_points, path) {
            Some(place) => {
                let mount = &mut self.mount_points[place];
                let count = depth(&mount.0);
                source_after(&mut mount.1, alloc, path, count)
            }
            None => match &mut self.fallback {
                Some(resolver) => source_after(resolver, alloc, path, 0),
                None => Err(not_found(alloc, path, "no mount point")),
            },
        }
    }

    /// The unit that the resolver which the path goes to hands out. No other resolver is asked.
    fn resolve_module(
        &mut self,
        alloc: Global,
        path: &ModulePath,
    ) -> Result<TranslationUnit, ResolveError>
        requires asked { AllReady B.ready (mounts_of self.old) (fallback_of self.old) }
        requires rooted { is_relative (path_view path.now) ≡ false }
        ensures handed { IfOk result (λ u. router_hands B.hands self.old (path_view path.now) (spelled (unit_view u))) }
        ensures refused { IfErr result (OrMemory (router_refuses B.refuses self.old (path_view path.now))) }
        ensures same { RouterMeans B.hands B.refuses B.source B.lacks B.shown self.old self.new }
        ensures stays_ready { AllReady B.ready (mounts_of self.new) (fallback_of self.new) }
        ensures each { EachMeansTheSame B.hands B.refuses B.source B.lacks B.shown self.old self.new }
        ensures others { ReachesOne (path_view path.now) self.old self.new }
    {
        match route(&self.mount_points, path) {
            Some(place) => {
                let mount = &mut self.mount_points[place];
                let count = depth(&mount.0);
                module_after(&mut mount.1, alloc, path, count)
            }
            None => match &mut self.fallback {
                Some(resolver) => module_after(resolver, alloc, path, 0),
                None => Err(not_found(alloc, path, "no mount point")),
            },
        }
    }

    fn display_name(
        &self,
        alloc: Global,
        path: &ModulePath,
    ) -> Result<Option<String>, ResolveError> {
        match route(&self.mount_points, path) {
            Some(place) => {
                let mount = &self.mount_points[place];
                name_after(&mount.1, alloc, path, depth(&mount.0))
            }
            None => match &self.fallback {
                Some(resolver) => name_after(resolver, alloc, path, 0),
                None => Ok(None),
            },
        }
    }
}
