//! Where the paths before names lead (WESL, "Imports").
ghost use Rattle.std.specs.Prelude.{◌≡◌, ◌<◌, All, IfOk, Some, length, map, slice_get};
ghost use Rattle.wesl_tree_names.specs.Path.{path_view};
ghost use Rattle.wesl_link_tables.specs.Aims.{Aims, IsKnown, spelled_binder};
ghost use Rattle.wesl_link_tables.specs.Numbering.{Grows, path_in};
ghost use Rattle.wesl_link_tables.specs.NumbersView.{numbering};
ghost use Rattle.wesl_link_tables.specs.Uses as uses;

use crate::numbers::Numbers;
use std::alloc::{AllocError, Global};
use wesl_link_split::binders::Binder;
use wesl_link_symbols::ids::{NameId, PathId};
use wesl_tree_names::ModulePath;

/// The number of the item of an import as a module, and on from there the components of `path`.
fn module_in_place(
    numbers: &mut Numbers,
    path: &ModulePath,
    import: &Binder<PathId, NameId>,
) -> Result<PathId, AllocError>
    requires { IsKnown (numbering numbers.old) import.now }
    ensures held { IfOk result (λ p. slice_get (numbering numbers.new).paths p.0 ≡ Some (uses.module_in_place (path_view path.now) (spelled_binder (numbering numbers.old) import.now))) }
    ensures grows { Grows (numbering numbers.old) (numbering numbers.new) }
{
    let item = numbers.names.get(import.item);
    let place = numbers.paths.child(import.path, item)?;
    numbers.paths.extended(place, &path.components)
}

/// The number of the module that a path before a name aims at in the module with the number `own`: the item of the first of
/// these imports, with whose name it begins, in the place of this name, and where there are none, the path as the module means
/// it. Refused for want of memory alone.
pub fn aim(
    alloc: Global,
    numbers: &mut Numbers,
    own: PathId,
    path: &ModulePath,
    imports: &[Binder<PathId, NameId>],
) -> Result<PathId, AllocError>
    requires own { own.0 < length (numbering numbers.old).paths }
    requires known { All (IsKnown (numbering numbers.old)) imports.now }
    ensures aims { IfOk result (λ p. Aims (numbering numbers.new) p (uses.aims (path_in (numbering numbers.old).paths own) (map (spelled_binder (numbering numbers.old)) imports.now) (path_view path.now))) }
    ensures grows { Grows (numbering numbers.old) (numbering numbers.new) }
{
    match imports.first() {
        Some(import) => module_in_place(numbers, path, import),
        None => numbers.paths.joined(alloc, own, path),
    }
}
