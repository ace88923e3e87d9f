//! What tells where a name or a module of a linked unit comes from.
ghost use Rattle.std.specs.Prelude.{◌≡◌, Option, None, option_map};
ghost use Rattle.wesl_tree_names.specs.Path.{Text, Path, path_view};

use wesl_tree_names::ModulePath;

/// Tells the items that names of a linked unit stand for, and the sources of modules.
///
/// A look-up takes no memory and never refuses: it answers `None` for what the map does not know.
///
/// # Example
///
/// ```
/// fn module_of<M: SourceMap>(map: &M, name: &str) -> Option<&ModulePath> {
///     let (path, _) = map.get_decl(name)?;
///     Some(path)
/// }
/// ```
pub trait SourceMap {
    // the module and the item that a name stands for
    ghost decl_of: { Self → Text → Option (Path × Text) };

    // the source of the module at a path
    ghost source_of: { Self → Path → Option Text };

    // the name by which the module at a path is shown
    ghost name_of: { Self → Path → Option Text };

    // the source of what is in no module
    ghost default_of: { Self → Option Text };

    /// The path of the module and the item of it that `name` stands for.
    fn get_decl(&self, name: &str) -> Option<(&ModulePath, &str)>
        ensures { option_map (λ d. (path_view d.0.now, d.1.now)) result ≡ decl_of self.now name.now };

    /// The source of the module at `path`.
    fn get_source(&self, path: &ModulePath) -> Option<&str>
        ensures { option_map (λ text. text.now) result ≡ source_of self.now (path_view path.now) };

    /// The name by which the module at `path` is shown.
    fn get_display_name(&self, path: &ModulePath) -> Option<&str>
        ensures { option_map (λ name. name.now) result ≡ name_of self.now (path_view path.now) };

    /// The source of what is in no module. A map that keeps none answers `None`.
    fn get_default_source(&self) -> Option<&str>
        ensures { option_map (λ text. text.now) result ≡ default_of self.now };
}

/// Knows nothing.
#[derive(Clone, Copy, Debug, Default)]
pub struct NoSourceMap;

impl SourceMap for NoSourceMap {
    ghost decl_of = { λ _ name. None };

    ghost source_of = { λ _ path. None };

    ghost name_of = { λ _ path. None };

    ghost default_of = { λ _. None };

    fn get_decl(&self, _: &str) -> Option<(&ModulePath, &str)> {
        None
    }

    fn get_source(&self, _: &ModulePath) -> Option<&str> {
        None
    }

    fn get_display_name(&self, _: &ModulePath) -> Option<&str> {
        None
    }

    fn get_default_source(&self) -> Option<&str> {
        None
    }
}

impl<T: SourceMap> SourceMap for Option<T> {
    ghost use Rattle.std.specs.Prelude.{option_and_then};

    ghost decl_of = { λ map name. option_and_then (λ m. T.decl_of m name) map };

    ghost source_of = { λ map path. option_and_then (λ m. T.source_of m path) map };

    ghost name_of = { λ map path. option_and_then (λ m. T.name_of m path) map };

    ghost default_of = { λ map. option_and_then (λ m. T.default_of m) map };

    fn get_decl(&self, name: &str) -> Option<(&ModulePath, &str)> {
        match self {
            Some(map) => map.get_decl(name),
            None => None,
        }
    }

    fn get_source(&self, path: &ModulePath) -> Option<&str> {
        match self {
            Some(map) => map.get_source(path),
            None => None,
        }
    }

    fn get_display_name(&self, path: &ModulePath) -> Option<&str> {
        match self {
            Some(map) => map.get_display_name(path),
            None => None,
        }
    }

    fn get_default_source(&self) -> Option<&str> {
        match self {
            Some(map) => map.get_default_source(),
            None => None,
        }
    }
}
