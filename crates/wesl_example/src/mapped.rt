//! A caller that links a unit of its own through a source mapper, and has the mapper back.
ghost use Rattle.std.specs.Prelude.{◌≡◌, true, false, IfOk, OnOk};
ghost use Rattle.wesl_tree_names.specs.Path.{Text, Path, path_view, is_relative};
ghost use Rattle.wesl_link_engine.specs.Recorded.{IsRecordedBy};
ghost use Rattle.wesl_link_engine.specs.Resolved.{writes};
ghost use Rattle.wesl_link.specs.Keeping.{modules_of};
ghost use Rattle.wesl_source_map_entries.specs.Records.{SameItems};
ghost use Rattle.wesl_source_map.specs.BasicView.{items, sources};
ghost use Rattle.wesl_source_map.specs.Recording.{GainsSources};
ghost use Rattle.wesl_source_map.specs.Starting.{KeepsStart};

use std::alloc::Global;
use std::marker::{Brand, PhantomData};
use wesl_link::{Resolutions, resolve_lazy};
use wesl_mangle::Mangler;
use wesl_resolve::Resolver;
use wesl_source_map::{Asked, SourceMapper, Start};
use wesl_tree::{Diagnostic, Error, ModulePath, TranslationUnit};

/// A link, and the mapper that it asked, with the sources that it recorded.
pub struct MappedLink<R, M> {
    /// the link
    pub found: Resolutions,
    /// the mapper
    pub mapper: SourceMapper<R, M>,
}

/// Links a root's unit through a mapper. The mapper is asked as `Asked`: so the items that it had recorded, and the names
/// that its mangler gives, are known to be the same afterwards, and its sources to be those that it had and the resolver's.
fn link_asked<R: Resolver + Drop, M: Mangler + Drop, S: Start>(
    alloc: Global,
    keep: &[&str],
    unit: TranslationUnit,
    path: &ModulePath,
    mapper: SourceMapper<R, M>,
) -> Result<MappedLink<R, M>, Diagnostic>
    requires ready { R.ready mapper.resolver }
    requires asked { is_relative (path_view path.now) ≡ false }
    requires start { KeepsStart S.Start R.Resolver M.Mangler mapper }
    ensures start { IfOk result (λ f. KeepsStart S.Start R.Resolver M.Mangler f.mapper) }
{
    let mut asked = Asked::<R, M, S> {
        mapper,
        start: PhantomData,
    };
    match resolve_lazy(alloc, keep, unit, path, &mut asked, 1000) {
        Ok(found) => Ok(MappedLink {
            found,
            mapper: asked.mapper,
        }),
        Err(diagnostic) => Err(diagnostic),
    }
}

/// Links a root's unit through a mapper, which has the same items recorded afterwards, gives the same names, and has gained
/// sources of its resolver alone.
pub fn link_by<R: Resolver + Drop, M: Mangler + Drop>(
    alloc: Global,
    keep: &[&str],
    unit: TranslationUnit,
    path: &ModulePath,
    mapper: SourceMapper<R, M>,
) -> Result<MappedLink<R, M>, Diagnostic>
    requires ready { R.ready mapper.resolver }
    requires asked { is_relative (path_view path.now) ≡ false }
    ensures items { IfOk result (λ f. SameItems (items mapper.sourcemap) (items f.mapper.sourcemap)) }
    ensures names { IfOk result (λ f. (p : Path) (i : Text) → M.name_of f.mapper.mangler p i ≡ M.name_of mapper.mangler p i) }
    ensures sources { IfOk result (λ f. GainsSources (sources mapper.sourcemap) (R.source mapper.resolver) (R.shown mapper.resolver) (sources f.mapper.sourcemap)) }
{
    link_asked::<R, M, Brand>(alloc, keep, unit, path, mapper)
}

/// Names all that a link's modules declare, but for the root's items, by its mapper, whose record then has each name with
/// its item.
pub fn name_all<R: Resolver, M: Mangler>(
    alloc: Global,
    link: &mut MappedLink<R, M>,
) -> Result<(), Error>
    ensures recorded { OnOk result (IsRecordedBy true (writes (M.name_of link.old.mapper.mangler) false (modules_of link.old.found)) (items link.old.mapper.sourcemap) (items link.new.mapper.sourcemap)) }
{
    link.found.mangle(alloc, &mut link.mapper, false)
}
