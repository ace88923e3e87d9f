//! A resolver that changes each unit before it hands it out.
ghost use Rattle.std.specs.Prelude.{◌≡◌, false, IfOk, IfErr, string_bytes};
ghost use Rattle.wesl_tree_names.specs.Path.{path_view, is_relative};
ghost use Rattle.wesl_tree_names.specs.Errors.{OrMemory};
ghost use Rattle.wesl_tree_syntax.specs.Unit.{spelled};
ghost use Rattle.wesl_tree.specs.Translation.{unit_view};
ghost use Rattle.wesl_tree.specs.declared.unit.TranslationUnit.{TranslationUnit};
ghost use Rattle.wesl_resolve_base.specs.Resolver.{MeansTheSame};

use std::alloc::Global;
use wesl_resolve_base::{Resolver, refused_by};
use wesl_tree::TranslationUnit;
use wesl_tree_names::{Error, ModulePath, ResolveError};

/// Hands out what a function makes of the units of another resolver.
///
/// Where the function refuses a unit, the module is refused with its error, path and display name, and without a
/// source. Sources and display names are those of the other resolver.
#[derive(Drop)]
pub struct Preprocessor<R, F> {
    /// The resolver whose units are changed.
    pub resolver: R,
    /// What is made of a unit.
    pub preprocess: F,
}

impl<R, F> Preprocessor<R, F> {
    /// A preprocessor of a resolver's units, by a function that may be called on every unit.
    pub fn new(resolver: R, preprocess: F) -> Preprocessor<R, F>
    where
        F: Fn(TranslationUnit) -> Result<TranslationUnit, Error>,
        requires { F.IsAlwaysCallable preprocess }
        ensures resolver { result.resolver ≡ resolver }
        ensures preprocess { result.preprocess ≡ preprocess }
    {
        Preprocessor {
            resolver,
            preprocess,
        }
    }
}

impl<R: Resolver, F: Fn(TranslationUnit) -> Result<TranslationUnit, Error>> Resolver
    for Preprocessor<R, F> {
    ghost use Rattle.wesl_resolve.specs.Preprocessor.{preprocessor_hands, preprocessor_refuses, preprocessor_tells, PreprocessorMeans};

    ghost ready = { λ s. R.ready s.resolver × ((u : TranslationUnit) → F.pre s.preprocess u) };

    ghost hands = { preprocessor_hands F.post R.hands };

    ghost refuses = { preprocessor_refuses F.post R.hands R.refuses };

    ghost source = { λ s. R.source s.resolver };

    ghost lacks = { λ s. R.lacks s.resolver };

    ghost shown = { λ s. R.shown s.resolver };

    /// The source that the other resolver gives. The function stays as it was.
    fn resolve_source(&mut self, alloc: Global, path: &ModulePath) -> Result<String, ResolveError>
        requires asked { R.ready self.old.resolver × ((u : TranslationUnit) → F.pre self.old.preprocess u) }
        requires rooted { is_relative (path_view path.now) ≡ false }
        ensures given { IfOk result (λ text. R.source self.old.resolver (path_view path.now) (string_bytes text)) }
        ensures refused { IfErr result (OrMemory (R.lacks self.old.resolver (path_view path.now))) }
        ensures resolver { MeansTheSame R.hands R.refuses R.source R.lacks R.shown self.old.resolver self.new.resolver }
        ensures preprocess { self.new.preprocess ≡ self.old.preprocess }
        ensures same { PreprocessorMeans F.post R.hands R.refuses R.source R.lacks R.shown self.old self.new }
        ensures stays_ready { R.ready self.new.resolver × ((u : TranslationUnit) → F.pre self.new.preprocess u) }
    {
        self.resolver.resolve_source(alloc, path)
    }

    /// What the function makes of the unit that the other resolver hands out. The function stays as it was.
    ///
    /// Where the function refuses the unit, the refusal tells the path and the name by which the other resolver shows
    /// it, and no source.
    fn resolve_module(
        &mut self,
        alloc: Global,
        path: &ModulePath,
    ) -> Result<TranslationUnit, ResolveError>
        requires asked { R.ready self.old.resolver × ((u : TranslationUnit) → F.pre self.old.preprocess u) }
        requires rooted { is_relative (path_view path.now) ≡ false }
        ensures handed { IfOk result (λ u. preprocessor_hands F.post R.hands self.old (path_view path.now) (spelled (unit_view u))) }
        ensures refused { IfErr result (OrMemory (preprocessor_refuses F.post R.hands R.refuses self.old (path_view path.now))) }
        ensures told { IfErr result (OrMemory (preprocessor_tells F.post R.hands R.refuses R.shown self.old (path_view path.now))) }
        ensures resolver { MeansTheSame R.hands R.refuses R.source R.lacks R.shown self.old.resolver self.new.resolver }
        ensures preprocess { self.new.preprocess ≡ self.old.preprocess }
        ensures same { PreprocessorMeans F.post R.hands R.refuses R.source R.lacks R.shown self.old self.new }
        ensures stays_ready { R.ready self.new.resolver × ((u : TranslationUnit) → F.pre self.new.preprocess u) }
    {
        let unit = match self.resolver.resolve_module(alloc, path) {
            Ok(unit) => unit,
            Err(refusal) => return Err(refusal),
        };
        match (self.preprocess)(unit) {
            Ok(unit) => Ok(unit),
            Err(fault) => Err(refused_by(&self.resolver, alloc, fault, path)),
        }
    }

    fn display_name(
        &self,
        alloc: Global,
        path: &ModulePath,
    ) -> Result<Option<String>, ResolveError> {
        self.resolver.display_name(alloc, path)
    }
}
