//! Paths of modules (WESL, "Imports").
ghost use Rattle.std.specs.Prelude.{◌≡◌, IfOk, IfErr, map, string_bytes, length};
ghost use Rattle.wesl_tree_names.specs.declared.errors.Error as error;
ghost use Rattle.wesl_tree_names.specs.Path.{path_view, origin_view, root_path, push, extend, is_relative, join_origin, join, same_origin, starts_with, kept_components};

use crate::errors::Error;
use std::alloc::Global;
use wesl_tree_base::{copied_texts, dependency_name};

/// Where a path begins: at the root of the package, so many modules above its reader, or in a named package.
#[derive(Debug, PartialEq, Eq, PartialOrd, Ord, Hash)]
pub enum PathOrigin {
    /// `package`
    Absolute,
    /// `self`, or `super` so many times
    Relative(usize),
    /// the name of a package, of which the parts of a dependency's dependency are joined by slashes
    Package(String),
}

/// The path of a module: where it begins, and the names that lead on from there.
///
/// Paths are ordered by origin (absolute ones, then relative ones by their number, then packages by the
/// bytes of their names), and then by components, by bytes and a beginning first.
#[derive(Debug, PartialEq, Eq, PartialOrd, Ord, Hash)]
pub struct ModulePath {
    /// Where the path begins.
    pub origin: PathOrigin,
    /// The names of the modules on the way, each below the one before it.
    pub components: Vec<String>,
}

impl Drop for PathOrigin {
    fn drop(self) {
        match self {
            PathOrigin::Absolute => {}
            PathOrigin::Relative(_) => {}
            PathOrigin::Package(_) => {}
        }
    }
}

impl Drop for ModulePath {
    fn drop(self) {
        let ModulePath {
            origin: _,
            components: _,
        } = self;
    }
}

impl PathOrigin {
    /// An equal copy. Refused for want of memory alone.
    pub fn try_clone(&self, alloc: Global) -> Result<PathOrigin, Error>
        ensures equal { IfOk result (λ o. origin_view o ≡ origin_view self.now) }
        ensures refused { IfErr result (λ e. e ≡ error.Memory) }
    {
        Ok(match self {
            PathOrigin::Absolute => PathOrigin::Absolute,
            PathOrigin::Relative(up) => PathOrigin::Relative(*up),
            PathOrigin::Package(name) => {
                PathOrigin::Package(String::from_str(alloc, name.as_str())?)
            }
        })
    }

    fn is_same(&self, other: &PathOrigin) -> bool
        ensures { result ≡ same_origin (origin_view self.now) (origin_view other.now) }
    {
        match (self, other) {
            (PathOrigin::Absolute, PathOrigin::Absolute) => true,
            (PathOrigin::Relative(up), PathOrigin::Relative(other_up)) => up == other_up,
            (PathOrigin::Package(name), PathOrigin::Package(other_name)) => name == other_name,
            _ => false,
        }
    }

    /// Where a path of the origin `to` begins, as a module at this origin means it.
    fn joined(&self, alloc: Global, to: &PathOrigin) -> Result<PathOrigin, Error>
        ensures value { IfOk result (λ o. origin_view o ≡ join_origin (origin_view self.now) (origin_view to.now)) }
        ensures refused { IfErr result (λ e. e ≡ error.Memory) }
    {
        match (self, to) {
            (PathOrigin::Package(_), PathOrigin::Absolute) => self.try_clone(alloc),
            (_, PathOrigin::Absolute) => Ok(PathOrigin::Absolute),
            (_, PathOrigin::Relative(_)) => self.try_clone(alloc),
            (PathOrigin::Package(name), PathOrigin::Package(dependency)) => {
                let name = dependency_name(alloc, name.as_str(), dependency.as_str())?;
                Ok(PathOrigin::Package(name))
            }
            (_, PathOrigin::Package(_)) => to.try_clone(alloc),
        }
    }
}

impl ModulePath {
    /// The path of this origin and these components. It takes no memory.
    pub fn new(origin: PathOrigin, components: Vec<String>) -> ModulePath
        ensures { result ≡ record { origin = origin; components = components } }
    {
        ModulePath { origin, components }
    }

    /// The path of the package's root module. It takes no memory.
    pub fn new_root(alloc: Global) -> ModulePath
        ensures { path_view result ≡ root_path }
    {
        ModulePath {
            origin: PathOrigin::Absolute,
            components: Vec::new(alloc),
        }
    }

    /// Appends `name` as one component, whatever it holds.
    ///
    /// Refused for want of memory alone; the path is then as before.
    pub fn push(&mut self, name: &str) -> Result<(), Error>
        ensures pushed { IfOk result (λ _. path_view self.new ≡ push (path_view self.old) name.now) }
        ensures refused { IfErr result (λ e. e ≡ error.Memory) }
        ensures unchanged { IfErr result (λ _. path_view self.new ≡ path_view self.old) }
    {
        let alloc = *self.components.allocator();
        self.components.push(String::from_str(alloc, name)?)?;
        Ok(())
    }

    /// A copy with `names` appended as components, each as one. Refused for want of memory alone.
    pub fn join(&self, alloc: Global, names: &[String]) -> Result<ModulePath, Error>
        ensures joined { IfOk result (λ p. path_view p ≡ extend (path_view self.now) (map string_bytes names.now)) }
        ensures refused { IfErr result (λ e. e ≡ error.Memory) }
    {
        let origin = self.origin.try_clone(alloc)?;
        let components = copied_texts(alloc, &self.components, names)?;
        Ok(ModulePath { origin, components })
    }

    /// How many of the components stay where a path of the origin `to` is joined to this one.
    fn kept(&self, to: &PathOrigin) -> usize
        ensures { result ≡ kept_components (length (path_view self.now).components) (origin_view to.now) }
    {
        match to {
            PathOrigin::Relative(up) => self.components.as_slice().len().saturating_sub(*up),
            _ => 0,
        }
    }

    /// The path `path` as the module at `self` means it (WESL, "Imports").
    ///
    /// A relative path drops so many of the last components of `self`, all where there are fewer, and goes
    /// on from there. An absolute one begins at the root of the package that `self` is in, and a named
    /// package is one of its dependencies: `q` is `p/q` where `self` is in `p`. Refused for want of memory
    /// alone.
    pub fn join_path(&self, alloc: Global, path: &ModulePath) -> Result<ModulePath, Error>
        ensures joined { IfOk result (λ p. path_view p ≡ join (path_view self.now) (path_view path.now)) }
        ensures refused { IfErr result (λ e. e ≡ error.Memory) }
    {
        let origin = self.origin.joined(alloc, &path.origin)?;
        let kept = &self.components[..self.kept(&path.origin)];
        let components = copied_texts(alloc, kept, &path.components)?;
        Ok(ModulePath { origin, components })
    }

    /// Whether the paths have one origin, and the components of `prefix` come first in this one.
    pub fn starts_with(&self, prefix: &ModulePath) -> bool
        ensures { result ≡ starts_with (path_view self.now) (path_view prefix.now) }
    {
        self.origin.is_same(&prefix.origin) && self.components.starts_with(&prefix.components)
    }

    /// Whether the path begins at its reader, as `self` or `super`, and so has to be joined to another.
    pub fn is_relative(&self) -> bool
        ensures { result ≡ is_relative (path_view self.now) }
    {
        matches!(self.origin, PathOrigin::Relative(_))
    }

    /// An equal copy. Refused for want of memory alone.
    pub fn try_clone(&self, alloc: Global) -> Result<ModulePath, Error>
        ensures equal { IfOk result (λ p. path_view p ≡ path_view self.now) }
        ensures refused { IfErr result (λ e. e ≡ error.Memory) }
    {
        self.join(alloc, &[])
    }
}
