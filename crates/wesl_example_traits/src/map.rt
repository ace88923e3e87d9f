//! A source map of one's own: one map, and where that says nothing another.
ghost use Rattle.wesl_example_traits.specs.Chosen.{first_of};

use wesl_source_map::SourceMap;
use wesl_tree::ModulePath;

/// Answers as the first map does, and where that has no answer as the second.
#[derive(Drop)]
pub struct Both<A, B> {
    /// the first
    pub first: A,
    /// the second
    pub second: B,
}

impl<A: SourceMap, B: SourceMap> SourceMap for Both<A, B> {
    ghost decl_of = { λ m name. first_of (A.decl_of m.first name) (B.decl_of m.second name) };

    ghost source_of = { λ m path. first_of (A.source_of m.first path) (B.source_of m.second path) };

    ghost name_of = { λ m path. first_of (A.name_of m.first path) (B.name_of m.second path) };

    ghost default_of = { λ m. first_of (A.default_of m.first) (B.default_of m.second) };

    fn get_decl(&self, name: &str) -> Option<(&ModulePath, &str)> {
        match self.first.get_decl(name) {
            Some(found) => Some(found),
            None => self.second.get_decl(name),
        }
    }

    fn get_source(&self, path: &ModulePath) -> Option<&str> {
        match self.first.get_source(path) {
            Some(found) => Some(found),
            None => self.second.get_source(path),
        }
    }

    fn get_display_name(&self, path: &ModulePath) -> Option<&str> {
        match self.first.get_display_name(path) {
            Some(found) => Some(found),
            None => self.second.get_display_name(path),
        }
    }

    fn get_default_source(&self) -> Option<&str> {
        match self.first.get_default_source() {
            Some(found) => Some(found),
            None => self.second.get_default_source(),
        }
    }
}
