//! The texts of paths.
ghost use Rattle.std.specs.Prelude.{◌≡◌, IfOk, string_bytes};
ghost use Rattle.wesl_tree_names.specs.Path.{path_view};
ghost use Rattle.wesl_tree_names.specs.PathText.{to_text};

use std::alloc::{AllocError, Global};
use wesl_tree::ModulePath;

/// The text of a path, as it is written.
pub(crate) fn path_text(alloc: Global, path: &ModulePath) -> Result<String, AllocError>
    ensures { IfOk result (λ text. string_bytes text ≡ to_text (path_view path.now)) }
{
    path.to_text(alloc).ok().ok_or(AllocError)
}
