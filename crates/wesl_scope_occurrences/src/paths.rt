//! The paths of identifiers, which are put back where they were left out.
ghost use Rattle.std.specs.Prelude.{◌≡◌, ◌<◌, length, map};
ghost use Rattle.wesl_tree_names.specs.Path.{path_view};
ghost use Rattle.wesl_scope_occurrences.specs.Bare.{with_path, IsPatched, IsPatchedAt};
ghost use Rattle.wesl_scope_occurrences.specs.Views.{occurrence_view};

use crate::occurrence::{Occurrence, Standing};
use wesl_tree::ModulePath;

/// The identifier at this place is a reference by the path.
fn put_path<'a>(found: &mut Vec<Occurrence<'a>>, place: usize, path: &'a ModulePath)
    ensures { map occurrence_view found.new.items ≡ with_path place (path_view path.now) (map occurrence_view found.old.items) }
{
    if place < found.len() {
        found[place].standing = Standing::Reference(Some(path));
    }
}

/// One more of the identifiers at these places has its path.
fn put_next<'a>(
    found: &mut Vec<Occurrence<'a>>,
    places: &[usize],
    paths: &[&'a ModulePath],
    i: usize,
)
    requires { i < length places.now }
    ensures { IsPatchedAt i (map occurrence_view found.old.items) places.now (map (λ p. path_view p.now) paths.now) (map occurrence_view found.new.items) }
{
    let place = places[i];
    if i < paths.len() {
        let path = paths[i];
        put_path(found, place, path);
    }
}

/// The same identifiers, where those at these places have these paths.
pub fn with_paths<'a>(
    found: Vec<Occurrence<'a>>,
    places: &[usize],
    paths: &[&'a ModulePath],
) -> Vec<Occurrence<'a>>
    ensures { IsPatched (map occurrence_view found.entry.items) places.now (map (λ p. path_view p.now) paths.now) (map occurrence_view result.items) }
{
    let mut patched = found;
    for i in 0..places.len() {
        put_next(&mut patched, places, paths, i);
    }
    patched
}
