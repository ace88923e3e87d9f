//! The linked unit of what a link found, under the names of a mangler.
ghost use Rattle.std.specs.Prelude.{IfOk, IfErr};
ghost use Rattle.wesl_tree_names.specs.Errors.{IsBare};
ghost use Rattle.wesl_tree_names.specs.declared.errors.Error as error;
ghost use Rattle.wesl_link.specs.Keeping.{resolved};
ghost use Rattle.wesl_text_linked.specs.Linked.{GivesMapped};

use std::alloc::Global;
use wesl_link::{Mapped, Resolutions};
use wesl_mangle_forms::Mangler;
use wesl_resolve_base::NoResolver;
use wesl_source_map::SourceMapper;
use wesl_tree::{Diagnostic, Error, ModulePath};

/// Names what a link found, makes its unit, and tells which name stands for which item. Refused for want of memory alone.
pub(crate) fn named<M: Mangler + Drop>(
    alloc: Global,
    found: Resolutions,
    root: &ModulePath,
    mangler: M,
    mangle_root: bool,
) -> Result<Mapped, Diagnostic>
    ensures named { IfOk result (GivesMapped (M.name_of mangler) mangle_root (resolved found)) }
    ensures refused { IfErr result (IsBare error.Memory) }
{
    let mut found = found;
    let mut mapper = SourceMapper::new(alloc, root.try_clone(alloc)?, NoResolver, mangler);
    found.mangle(alloc, &mut mapper, mangle_root)?;
    let unit = found.into_unit(alloc, true)?;
    match mapper.finish(alloc) {
        Ok(map) => Ok(Mapped { unit, map }),
        Err(_) => Err(Diagnostic::of(Error::Memory)),
    }
}
