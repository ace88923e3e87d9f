//! What hands out the module at a path.
ghost use Rattle.std.specs.Prelude.{◌≡◌, false, Option, IfOk, IfErr, option_map, string_bytes};
ghost use Rattle.wesl_tree_names.specs.Path.{Text, Path, path_view, is_relative};
ghost use Rattle.wesl_tree_names.specs.Errors.{OrMemory};
ghost use Rattle.wesl_tree_names.specs.declared.errors.ResolveError.{ResolveError};
ghost use Rattle.wesl_tree_names.specs.declared.errors.ResolveError as resolve_error;
ghost use Rattle.wesl_tree_syntax.specs.Unit.{UnitOf, spelled};
ghost use Rattle.wesl_tree.specs.Translation.{unit_view};
ghost use Rattle.wesl_resolve_base.specs.Resolver.{MeansTheSame};

use std::alloc::Global;
use wesl_tree::TranslationUnit;
use wesl_tree_names::{ModulePath, ResolveError};

/// Hands out the modules at paths that are not relative (WESL, "Imports").
///
/// What it hands out, refuses and shows at each path is fixed: no call changes it. Units count by their spelling.
pub trait Resolver {
    /// It may be asked, as where a function that it holds may be called: always, where nothing is said.
    ghost ready: { Self → Type 0 } = { λ _. Unit {0} };

    /// It may hand out at the path a unit that is spelled so.
    ghost hands: { Self → Path → UnitOf Text → Type 0 };

    /// It may refuse the path with the error.
    ghost refuses: { Self → Path → ResolveError → Type 0 };

    /// It may give the text as the source at the path.
    ghost source: { Self → Path → Text → Type 0 };

    /// It may refuse the source at the path with the error: with any, where nothing is said.
    ghost lacks: { Self → Path → ResolveError → Type 0 } = { λ _ p e. Unit {0} };

    /// It may show the path by the name, or by none.
    ghost shown: { Self → Path → Option Text → Type 0 };

    /// The source of the module at a path. Refused where the resolver has no such source, and for want of memory.
    fn resolve_source(&mut self, alloc: Global, path: &ModulePath) -> Result<String, ResolveError>
        requires asked { ready self.old }
        requires rooted { is_relative (path_view path.now) ≡ false }
        ensures given { IfOk result (λ text. source self.old (path_view path.now) (string_bytes text)) }
        ensures refused { IfErr result (OrMemory (lacks self.old (path_view path.now))) }
        ensures same { MeansTheSame hands refuses source lacks shown self.old self.new }
        ensures stays_ready { ready self.new };

    /// The unit of the module at a path. Refused where the resolver has no such module or cannot read it, and for
    /// want of memory.
    fn resolve_module(
        &mut self,
        alloc: Global,
        path: &ModulePath,
    ) -> Result<TranslationUnit, ResolveError>
        requires asked { ready self.old }
        requires rooted { is_relative (path_view path.now) ≡ false }
        ensures handed { IfOk result (λ u. hands self.old (path_view path.now) (spelled (unit_view u))) }
        ensures refused { IfErr result (OrMemory (refuses self.old (path_view path.now))) }
        ensures same { MeansTheSame hands refuses source lacks shown self.old self.new }
        ensures stays_ready { ready self.new };

    /// The name by which the module at a path is shown, as a file's, if it has one. Refused for want of memory
    /// alone.
    fn display_name(&self, alloc: Global, path: &ModulePath) -> Result<Option<String>, ResolveError>
        requires asked { ready self.now }
        requires rooted { is_relative (path_view path.now) ≡ false }
        ensures named { IfOk result (λ name. shown self.now (path_view path.now) (option_map string_bytes name)) }
        ensures refused { IfErr result (λ e. e ≡ resolve_error.Memory) };
}
