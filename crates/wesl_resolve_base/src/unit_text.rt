//! A form in which units are written as texts.
ghost use Rattle.std.specs.Prelude.{◌≡◌, ◌⊎◌, None, Some, IfOk, IfErr, string_bytes};
ghost use Rattle.wesl_tree_names.specs.Path.{Text, path_view};
ghost use Rattle.wesl_tree_names.specs.Errors.{OrMemory};
ghost use Rattle.wesl_tree_names.specs.declared.errors.Error.{Error};
ghost use Rattle.wesl_tree_names.specs.declared.errors.Error as error;
ghost use Rattle.wesl_tree_names.specs.declared.errors.Diagnostic.{out-Diagnostic};
ghost use Rattle.wesl_tree_syntax.specs.Unit.{UnitOf, spelled};
ghost use Rattle.wesl_tree.specs.Translation.{unit_view};
ghost use Rattle.wesl_resolve_base.specs.Refusals.{IsToldRefusal};
ghost use Rattle.wesl_resolve_base.specs.UnitText.{HasTextPaths};

use crate::refusals::refused;
use std::alloc::Global;
use wesl_tree::TranslationUnit;
use wesl_tree_names::{Diagnostic, Error, ModulePath, ResolveError};

/// Reads units from texts, and prints them. Which text is read, refused or printed is fixed. Units count by their
/// spelling.
pub trait UnitText {
    /// The text may be read as a unit that is spelled so.
    ghost reads: { Self → Text → UnitOf Text → Type 0 };

    /// The text may be refused with the error.
    ghost unreadable: { Self → Text → Error → Type 0 };

    /// A unit that is spelled so may be printed as the text.
    ghost prints: { Self → UnitOf Text → Text → Type 0 };

    /// The unit that a text says. Refused where it says none, and for want of memory.
    fn read(&self, alloc: Global, text: &str) -> Result<TranslationUnit, Diagnostic>
        ensures read { IfOk result (λ u. reads self.now text.now (spelled (unit_view u))) }
        ensures refused { IfErr result (λ d. ((out-Diagnostic d).error ≡ error.Memory) ⊎ unreadable self.now text.now (out-Diagnostic d).error) };

    /// A text that says the unit. Refused for want of memory alone.
    fn print(&self, alloc: Global, unit: &TranslationUnit) -> Result<String, Diagnostic>
        ensures printed { IfOk result (λ text. prints self.now (spelled (unit_view unit.now)) (string_bytes text)) }
        ensures refused { IfErr result (λ d. (out-Diagnostic d).error ≡ error.Memory) };

    /// What was printed is read as a unit of the same spelling, if each path in it has a text that says no other
    /// path.
    ghost reads_back: { (s : Self) (u v : UnitOf Text) (text : Text) → HasTextPaths u → prints s u text → reads s text v → v ≡ u };
}

/// The refusal of a source that cannot be read, which is told with the path.
fn unreadable(alloc: Global, fault: Diagnostic, path: &ModulePath, source: &str) -> ResolveError
    ensures { OrMemory (IsToldRefusal (λ e. e ≡ (out-Diagnostic fault).error) (path_view path.now) None (Some source.now)) result }
{
    match String::from_str(alloc, source) {
        Ok(source) => refused(alloc, fault.into_error(), path, None, Some(source)),
        Err(_) => ResolveError::Memory,
    }
}

/// The unit that the source of the module at a path says. Where it says none, the refusal tells the path and the
/// source.
pub fn read_module<P: UnitText>(
    text: &P,
    alloc: Global,
    path: &ModulePath,
    source: &str,
) -> Result<TranslationUnit, ResolveError>
    ensures read { IfOk result (λ u. P.reads text.now source.now (spelled (unit_view u))) }
    ensures refused { IfErr result (OrMemory (IsToldRefusal (P.unreadable text.now source.now) (path_view path.now) None (Some source.now))) }
{
    match text.read(alloc, source) {
        Ok(unit) => Ok(unit),
        Err(fault) => Err(unreadable(alloc, fault, path, source)),
    }
}
