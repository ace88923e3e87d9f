//! A link through a mapper, and what it records.
ghost use Rattle.std.specs.Prelude.{◌≡◌, ◌↔◌, Result, false, IfOk, IfErr, option_copied};
ghost use Rattle.wesl_tree_names.specs.Errors.{IsBare};
ghost use Rattle.wesl_tree_names.specs.declared.errors.Error as error;
ghost use Rattle.wesl_tree_names.specs.Path.{Text, Path, path_view, is_relative};
ghost use Rattle.wesl_tree.specs.declared.unit.TranslationUnit.{TranslationUnit};
ghost use Rattle.wesl_cond.specs.Conditioned.{IsConditioned};
ghost use Rattle.wesl_link_engine.specs.Asking.{request_view, kept_of};
ghost use Rattle.wesl_link.specs.Asking.{FindsLink, TellsRefusal, TellsRefusalOfLeft};
ghost use Rattle.wesl_link.specs.Keeping.{resolved};
ghost use Rattle.wesl_source_map_entries.specs.Records.{SameItems, SameSources};
ghost use Rattle.wesl_source_map.specs.BasicView.{items, sources, default_text};
ghost use Rattle.wesl_source_map.specs.Recording.{GainsSources};
ghost use Rattle.wesl_source_map.specs.Starting.{KeepsStart};
ghost use Rattle.wesl_link.specs.Mapping.{FindsLeft, MapsLeft, GainsSourcesOf, ShowsRoot};
ghost use Rattle.wesl_link.specs.Mapping.{AssemblesFound, RecordsFound, root_of, sources_of, default_of};

use crate::conditional::link_at;
use crate::resolutions::Resolutions;
use std::alloc::Global;
use std::marker::{Brand, PhantomData};
use wesl_cond::{Features, condition};
use wesl_link_engine::LinkRequest;
use wesl_mangle_forms::Mangler;
use wesl_resolve::Preprocessor;
use wesl_resolve_base::{NoResolver, Resolver};
use wesl_source_map::{Asked, BasicSourceMap, SourceMapper, Start};
use wesl_tree::{Diagnostic, Error, ModulePath, TranslationUnit};

/// A linked unit, and what was recorded while it was linked.
#[derive(Drop)]
pub struct Mapped {
    /// The unit.
    pub unit: TranslationUnit,
    /// The items that its names stand for, and the sources that were read.
    pub map: BasicSourceMap,
}

/// What a link through a mapper found, before its names are given and its unit is made. Nothing of the resolver is left in it.
#[derive(Drop)]
pub struct FoundLink<M> {
    root: ModulePath,
    resolutions: Resolutions,
    mapper: SourceMapper<NoResolver, M>,
}

impl<M: Mangler + Drop> FoundLink<M> {
    /// Gives the unit of what was found the names of the mapper's mangler (WESL, "NameMangling").
    ///
    /// The record has, beside what the mapper had, a name for each declared name of each module of the link, in module order;
    /// those of the root only with `mangle_root`. Its sources are those of the mapper. Where it has one of the mapper's root,
    /// that is the default source. Refused for want of memory alone, and the diagnostic tells that.
    pub fn finish(self, alloc: Global, mangle_root: bool) -> Result<Mapped, Diagnostic>
        ensures named { IfOk result (AssemblesFound M.name_of mangle_root self) }
        ensures recorded { IfOk result (RecordsFound M.name_of mangle_root self) }
        ensures sources { IfOk result (λ made. SameSources (sources_of self) (sources made.map)) }
        ensures default { IfOk result (λ made. ShowsRoot (root_of self) (default_of self) made.map) }
        ensures refused { IfErr result (IsBare error.Memory) }
    {
        let FoundLink {
            root,
            mut resolutions,
            mapper,
        } = self;
        let SourceMapper {
            root: asked_root,
            resolver,
            mangler,
            mut sourcemap,
        } = mapper;
        // The sources are held apart meanwhile: what is generic in the mapper says nothing of those that it has.
        let mut naming = SourceMapper {
            root: asked_root,
            resolver,
            mangler,
            sourcemap: sourcemap.take_decls(alloc),
        };
        resolutions.mangle(alloc, &mut naming, mangle_root)?;
        let unit = resolutions.into_unit(alloc, true)?;
        naming.sourcemap = naming.sourcemap.with_sources_of(sourcemap);
        // Told again, since what is generic in the mapper says nothing of the path that it has.
        naming.root = root;
        match naming.finish(alloc) {
            Ok(map) => Ok(Mapped { unit, map }),
            Err(_) => Err(Diagnostic::of(Error::Memory)),
        }
    }
}

/// Links the module at the request's root as `link_under` does, and gives its unit the names of the mapper's mangler (WESL,
/// "NameMangling").
///
/// The mapper is the resolver of the link, the root's too, and then its mangler. So its record has, beside what it had, a name
/// for each declared name of each module of the link, in module order; those of the root only with `mangle_root`. No source
/// that it had is lost, and each that it has it had before, or it is the resolver's for that path, shown as the resolver shows
/// it: the mapper records that of each module that it is asked for, where the resolver gives one. Where there is one of the
/// mapper's root, that is the default source.
///
/// Refused as `link_under` is: where the resolver refuses a path, where a fault of a condition stands in a unit, where a link
/// is refused, and for want of memory. The diagnostic tells the module that has two targets of a name, or that lacks a name or
/// hides it.
///
/// It is `find_mapped`, and `FoundLink::finish` of what that finds.
pub fn link_mapped<R: Resolver + Drop, M: Mangler + Drop>(
    alloc: Global,
    request: &LinkRequest<'_>,
    mapper: SourceMapper<R, M>,
    features: Option<&Features>,
    mangle_root: bool,
) -> Result<Mapped, Diagnostic>
    requires ready { R.ready mapper.resolver }
    requires asked { is_relative (path_view request.now.root.now) ≡ false }
    ensures mapped { IfOk result (MapsLeft R.Resolver M.Mangler (option_copied features.entry) mapper (request_view request.now) mangle_root) }
    ensures sources { IfOk result (λ made. GainsSourcesOf R.Resolver mapper made.map) }
    ensures default { IfOk result (λ made. ShowsRoot (path_view mapper.root) (default_text mapper.sourcemap) made.map) }
    ensures refused { IfErr result (TellsRefusalOfLeft R.Resolver mapper.resolver (option_copied features.entry) (request_view request.now)) }
{
    match find_mapped(alloc, request, mapper, features) {
        Ok(found) => found.finish(alloc, mangle_root),
        Err(diagnostic) => Err(diagnostic),
    }
}

/// Finds the modules of the link that `link_mapped` makes, and gives no names yet. The resolver is let go with all that it
/// held, so the caller may let go of what that borrowed before the unit is made, which takes memory of its own.
///
/// Refused as `link_mapped` is.
pub fn find_mapped<R: Resolver + Drop, M: Mangler + Drop>(
    alloc: Global,
    request: &LinkRequest<'_>,
    mapper: SourceMapper<R, M>,
    features: Option<&Features>,
) -> Result<FoundLink<M>, Diagnostic>
    requires ready { R.ready mapper.resolver }
    requires asked { is_relative (path_view request.now.root.now) ≡ false }
    ensures found { IfOk result (FindsLeft R.Resolver M.Mangler (option_copied features.entry) mapper (request_view request.now)) }
    ensures sources { IfOk result (λ found. GainsSourcesOf R.Resolver mapper found.mapper.sourcemap) }
    ensures default { IfOk result (λ found. default_of found ≡ default_text mapper.sourcemap) }
    ensures root { IfOk result (λ found. root_of found ≡ path_view mapper.root) }
    ensures refused { IfErr result (TellsRefusalOfLeft R.Resolver mapper.resolver (option_copied features.entry) (request_view request.now)) }
{
    let judge = |unit: TranslationUnit|
        ensures { IsConditioned (option_copied features.entry) unit result }
    { condition(alloc, unit, features) };
    find_judged(alloc, request, mapper, judge, features)
}

// Finds what a link holds of what a function leaves of the units that are handed out, the root's too.
fn find_judged<
    R: Resolver + Drop,
    M: Mangler + Drop,
    F: Fn(TranslationUnit) -> Result<TranslationUnit, Error> + Drop,
>(
    alloc: Global,
    request: &LinkRequest<'_>,
    mapper: SourceMapper<R, M>,
    judge: F,
    features: Option<&Features>,
) -> Result<FoundLink<M>, Diagnostic>
    requires ready { R.ready mapper.resolver }
    requires asked { is_relative (path_view request.now.root.now) ≡ false }
    requires callable { F.IsAlwaysCallable judge }
    requires judges { (given : TranslationUnit) (answer : Result TranslationUnit error.Error) → F.post judge given answer ↔ IsConditioned (option_copied features) given answer }
    ensures found { IfOk result (FindsLeft R.Resolver M.Mangler (option_copied features.entry) mapper (request_view request.now)) }
    ensures sources { IfOk result (λ found. GainsSourcesOf R.Resolver mapper found.mapper.sourcemap) }
    ensures default { IfOk result (λ found. default_of found ≡ default_text mapper.sourcemap) }
    ensures root { IfOk result (λ found. root_of found ≡ path_view mapper.root) }
    ensures refused { IfErr result (TellsRefusalOfLeft R.Resolver mapper.resolver (option_copied features.entry) (request_view request.now)) }
{
    let SourceMapper {
        root,
        resolver,
        mangler,
        sourcemap,
    } = mapper;
    let at = root.try_clone(alloc)?;
    let judged = SourceMapper {
        root: at,
        resolver: Preprocessor::new(resolver, judge),
        mangler,
        sourcemap,
    };
    match found::<Preprocessor<R, F>, M, Brand>(alloc, request, judged) {
        Ok(found) => {
            let MapperLink {
                resolutions,
                mapper,
            } = found;
            Ok(FoundLink {
                root,
                resolutions,
                mapper,
            })
        }
        Err(diagnostic) => Err(diagnostic),
    }
}

// What a link found, and the mapper that it asked, whose resolver was let go, with all that it held.
struct MapperLink<M> {
    resolutions: Resolutions,
    mapper: SourceMapper<NoResolver, M>,
}

// Links by the mapper as a resolver alone: the names that it has recorded stay, those that its mangler gives, and the default
// source, and it gains sources of its resolver.
fn found<R: Resolver + Drop, M: Mangler + Drop, S: Start>(
    alloc: Global,
    request: &LinkRequest<'_>,
    mapper: SourceMapper<R, M>,
) -> Result<MapperLink<M>, Diagnostic>
    requires ready { R.ready mapper.resolver }
    requires asked { is_relative (path_view request.now.root.now) ≡ false }
    requires start { KeepsStart S.Start R.Resolver M.Mangler mapper }
    ensures linked { IfOk result (λ f. FindsLink R.Resolver mapper.resolver (request_view request.now) f.resolutions) }
    ensures kept { IfOk result (λ f. (resolved f.resolutions).kept ≡ kept_of (request_view request.now)) }
    ensures eager { IfOk result (λ f. (resolved f.resolutions).is_eager ≡ request.now.is_eager) }
    ensures decls { IfOk result (λ f. SameItems S.items (items f.mapper.sourcemap)) }
    ensures names { IfOk result (λ f. (p : Path) (i : Text) → M.name_of f.mapper.mangler p i ≡ S.name_of p i) }
    ensures sources { IfOk result (λ f. GainsSources S.sources S.gives S.shows (sources f.mapper.sourcemap)) }
    ensures default { IfOk result (λ f. default_text f.mapper.sourcemap ≡ S.default) }
    ensures refused { IfErr result (TellsRefusal R.Resolver mapper.resolver (request_view request.now)) }
{
    let mut asked = Asked::<R, M, S> {
        mapper,
        start: PhantomData,
    };
    match link_at(alloc, request, &mut asked) {
        Ok(resolutions) => Ok(MapperLink {
            resolutions,
            mapper: without_resolver(asked.mapper),
        }),
        Err(diagnostic) => Err(diagnostic),
    }
}

// The mapper once nothing more is asked of its resolver.
fn without_resolver<R: Drop, M>(mapper: SourceMapper<R, M>) -> SourceMapper<NoResolver, M>
    ensures mangler { result.mangler ≡ mapper.mangler }
    ensures record { result.sourcemap ≡ mapper.sourcemap }
{
    let SourceMapper {
        root,
        resolver,
        mangler,
        sourcemap,
    } = mapper;
    drop(resolver);
    SourceMapper {
        root,
        resolver: NoResolver,
        mangler,
        sourcemap,
    }
}
