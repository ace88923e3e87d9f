//! Links of the modules of a row.
ghost use Rattle.std.specs.Prelude.{◌≡◌, false, IfOk};
ghost use Rattle.wesl_tree_names.specs.Path.{path_view, is_relative};

use serde_json::Value;
use wesl_json::JsonText;
use wesl_link::{Resolutions, resolve_eager, resolve_lazy};
use wesl_mangle::EscapeMangler;
use wesl_resolve::VirtualResolver;
use wesl_rows_base::{List, Object, Row, is_refused, stands};
use wesl_scope::names_clash;
use wesl_tree::{Diagnostic, ModulePath, TranslationUnit};

/// The linked unit as a tree in the form of the row: of an eager link the whole one, else the stripped one.
fn unit(row: Row<'_>, found: &Resolutions) -> Value {
    let strips = !found.is_eager();
    row.written(&row.unit_or_none(found.assemble(row.alloc, strips)))
}

/// What is told of a link, with the paths of its modules in their order.
fn told(row: Row<'_>, found: Resolutions) -> Value {
    let order = row.or(found.module_order(row.alloc), Vec::new(row.alloc));
    let mut paths = List::new(row.alloc);
    for path in order.as_slice() {
        paths.put(row.path_value(path));
    }
    let mut answer = Object::new(row.alloc);
    answer.flag("is_eager", found.is_eager());
    answer.number("turns", found.turns());
    answer.put("modules", paths.end(row));
    answer.put("unit", unit(row, &found));
    match found.root_path() {
        Some(path) => answer.put("root", row.path_value(path)),
        None => answer.put("root", Value::Null),
    }
    answer.end(row)
}

/// The link of modules from a root, with no more than the `limit` of a row: an eager one, or a lazy one with these names kept.
pub fn link(
    row: Row<'_>,
    is_eager: bool,
    keep: &[&str],
    root: TranslationUnit,
    path: ModulePath,
    modules: VirtualResolver<JsonText>,
) -> Result<Resolutions, Diagnostic>
    requires { is_relative (path_view path) ≡ false }
{
    let mut modules = modules;
    let limit = row.number("limit", 1000);
    if is_eager {
        resolve_eager(row.alloc, root, &path, &mut modules, limit)
    } else {
        resolve_lazy(row.alloc, keep, root, &path, &mut modules, limit)
    }
}

/// The link of a row's modules, from its `unit` at its `path`: an eager one, or a lazy one with the names `keep`.
pub fn linked(row: Row<'_>, is_eager: bool) -> Result<Resolutions, Diagnostic> {
    let keep = row.texts("keep");
    let modules = row.modules("modules");
    link(
        row,
        is_eager,
        keep.as_slice(),
        row.unit("unit"),
        row.rooted("path"),
        modules,
    )
}

/// What a link of a row's modules answers, under the names of the escape mangler but for the root's.
pub fn mangled(row: Row<'_>, is_eager: bool) -> Value {
    match linked(row, is_eager) {
        Ok(found) => {
            let mut found = found;
            row.done(found.mangle(row.alloc, &mut EscapeMangler, false));
            told(row, found)
        }
        Err(refusal) => row.answer_of(refusal),
    }
}

/// Whether the names of the unit of the lazy link of a row's modules are read otherwise than its numbers say, and that
/// unit, under the names of the escape mangler but for the root's.
pub fn clash(row: Row<'_>) -> Value {
    match linked(row, false) {
        Ok(found) => {
            let mut found = found;
            row.done(found.mangle(row.alloc, &mut EscapeMangler, false));
            let unit = row.unit_or_none(found.assemble(row.alloc, true));
            let mut answer = Object::new(row.alloc);
            answer.flag("clash", row.is(names_clash(row.alloc, &unit)));
            answer.put("unit", row.tree_of(&unit));
            answer.end(row)
        }
        Err(refusal) => row.answer_of(refusal),
    }
}

/// What is told where nothing was linked.
pub fn nothing(row: Row<'_>) -> Value {
    told(row, Resolutions::new_uninit(row.alloc))
}

/// The unit of the lazy link of a row's modules under the names of the escape mangler, the root's too, or, where these are
/// refused, under those that it has then.
pub fn mangled_or_left(row: Row<'_>) -> Value {
    match linked(row, false) {
        Ok(found) => {
            let mut found = found;
            let is_refused = is_refused(found.mangle(row.alloc, &mut EscapeMangler, true));
            stands(row, is_refused, unit(row, &found))
        }
        Err(refusal) => row.answer_of(refusal),
    }
}
