//! Where the escape form is read back as what it was written for.
ghost use Rattle.std.specs.Prelude.{◌≡◌, ◌==◌, Some, true, map, string_bytes};
ghost use Rattle.std.specs.List.{list_all};
ghost use Rattle.wesl_tree_names.specs.Path.{path_view, origin_view};
ghost use Rattle.wesl_mangle_forms.specs.Escape.{parts_of, is_word, is_plain, is_plain_origin, escape, unescape, is_reversible};

use wesl_tree_base::has_slash;
use wesl_tree_names::{ModulePath, PathOrigin};

/// Whether the name is one of the words that the escape form writes.
fn is_word(name: &str) -> bool
    ensures { result ≡ is_word name.now }
{
    name == "package" || name == "self" || name == "super" || name == "import"
}

/// Whether the name is not empty, begins with no digit, has no slash and is none of the words.
fn is_plain(name: &str) -> bool
    ensures { result ≡ is_plain name.now }
{
    match name.as_bytes() {
        [] => false,
        [first, ..] => !first.is_ascii_digit() && !has_slash(name) && !is_word(name),
    }
}

/// Whether each part between the slashes is plain.
fn has_plain_parts(name: &str) -> bool
    ensures { result ≡ list_all is_plain (parts_of name.now) }
{
    name.split('/').all(is_plain)
}

fn is_plain_origin(origin: &PathOrigin) -> bool
    ensures { result ≡ is_plain_origin (origin_view origin.now) }
{
    match origin {
        PathOrigin::Absolute | PathOrigin::Relative(_) => true,
        PathOrigin::Package(name) => has_plain_parts(name.as_str()),
    }
}

fn are_plain(names: &[String]) -> bool
    ensures { result ≡ list_all is_plain (map string_bytes names.now) }
{
    names.iter().all(|name| is_plain(name.as_str()))
}

/// Whether the escape form of `item` of the module at `path` is read back as this pair.
///
/// It is where each name is not empty, begins with no ASCII digit, has no slash and is none of
/// `package`, `self`, `super` and `import`; a package's name is such names with a slash between
/// each two. It takes no memory.
pub fn is_reversible(path: &ModulePath, item: &str) -> bool
    ensures told { result ≡ is_reversible (path_view path.now) item.now }
    ensures read_back { result ≡ true → unescape (escape (path_view path.now) item.now) ≡ Some (path_view path.now, item.now) }
{
    is_plain_origin(&path.origin) && are_plain(path.components.as_slice()) && is_plain(item)
}
