//! The modules of a bundle of texts, as a resolver: the text at a path is read only when it is asked for.
ghost use Rattle.std.specs.Prelude.{◌≡◌, ◌⊎◌, IfOk, IfErr, None, Ok};
ghost use Rattle.wesl_tree_names.specs.Errors.{IsModuleNotFound, IsRefusedFor, IsRefusedWith, OrMemory};
ghost use Rattle.wesl_tree_names.specs.Path.{path_view};
ghost use Rattle.wesl_tree_names.specs.declared.errors.Diagnostic.{out-Diagnostic};
ghost use Rattle.wesl_tree_names.specs.declared.errors.Error as error;
ghost use Rattle.wesl_tree_syntax.specs.Unit.{spelled};
ghost use Rattle.wesl_tree.specs.Translation.{unit_view};
ghost use Rattle.wesl_json_form.specs.View.{borrowed_view};
ghost use Rattle.wesl_text_form.specs.Says.{TextSays};
ghost use Rattle.wesl_text.specs.Said.{IsUnreadable};
ghost use Rattle.wesl_program.specs.Hands.{virtual_module};
ghost use Rattle.wesl_text_program.specs.Sources.{hands_of, refuses_of, said_of, unsaid_of};
ghost use Rattle.wesl_text_program.specs.Texts.{IsNoText, IsSaidBy, IsTextFault};

use std::alloc::Global;
use wesl_cond::condition;
use wesl_cond_features::Features;
use wesl_json_form::BorrowedValue;
use wesl_program::BundleSources;
use wesl_resolve_base::{Resolver, UnitText, refused};
use wesl_text::WeslText;
use wesl_tree::{Diagnostic, Error, ModulePath, ResolveError, TranslationUnit};

/// The modules of a bundle of texts and of its packages, each as the features leave it; without features no condition is judged.
/// A text is read when its module is asked for. The modules are virtual: none has a source, or a name by which it is shown.
#[derive(Clone, Copy)]
pub struct TextSources<'s, 't> {
    /// The values of the units.
    pub sources: &'s BundleSources<'t>,
    /// The answers for feature flags.
    pub features: Option<&'s Features>,
}

impl Resolver for TextSources<'_, '_> {
    ghost use Rattle.wesl_tree_names.specs.Errors.{IsModuleNotFound};
    ghost use Rattle.wesl_program.specs.Hands.{virtual_module};
    ghost use Rattle.wesl_text_program.specs.Sources.{hands_of, refuses_of};

    ghost ready = { λ _. Unit {0} };

    ghost hands = { hands_of };

    ghost refuses = { refuses_of };

    ghost source = { λ _ p text. ⊥ };

    ghost lacks = { λ _ p e. IsModuleNotFound p virtual_module e };

    ghost shown = { λ _ p name. name ≡ None };

    fn resolve_module(
        &mut self,
        alloc: Global,
        path: &ModulePath,
    ) -> Result<TranslationUnit, ResolveError> {
        self.left_at(alloc, path)
    }

    fn resolve_source(&mut self, alloc: Global, path: &ModulePath) -> Result<String, ResolveError> {
        Err(wesl_resolve_base::not_found(alloc, path, "virtual module"))
    }

    fn display_name(&self, _: Global, _: &ModulePath) -> Result<Option<String>, ResolveError> {
        Ok(None)
    }
}

impl TextSources<'_, '_> {
    /// The unit at a path, as the features leave it.
    ///
    /// # Errors
    ///
    /// No module is at the path, its unit is no text, or the text says no unit; a fault of a condition; and want of memory.
    pub fn left_at(&self, alloc: Global, path: &ModulePath) -> Result<TranslationUnit, ResolveError>
        ensures handed { IfOk result (λ u. hands_of self.now (path_view path.now) (spelled (unit_view u))) }
        ensures refused { IfErr result (OrMemory (refuses_of self.now (path_view path.now))) }
    {
        match self.said_at(alloc, path) {
            Ok(unit) => match condition(alloc, unit, self.features) {
                Ok(left) => Ok(left),
                Err(fault) => Err(refused(alloc, fault, path, None, None)),
            },
            Err(refusal) => Err(refusal),
        }
    }

    // The unit that the text at a path says.
    fn said_at(&self, alloc: Global, path: &ModulePath) -> Result<TranslationUnit, ResolveError>
        ensures said { IfOk result (λ u. said_of self.now (path_view path.now) (spelled (unit_view u))) }
        ensures refused { IfErr result (OrMemory (unsaid_of self.now (path_view path.now))) }
    {
        match self.sources.value_at(alloc, path) {
            Ok(value) => unit_of_value(alloc, path, value),
            Err(refusal) => Err(refusal),
        }
    }
}

// The unit that a value says, which is to be a text.
fn unit_of_value(
    alloc: Global,
    path: &ModulePath,
    value: &BorrowedValue<'_>,
) -> Result<TranslationUnit, ResolveError>
    ensures said { IfOk result (λ u. IsSaidBy (Ok (borrowed_view value.now)) (spelled (unit_view u))) }
    ensures refused { IfErr result (OrMemory (IsRefusedWith (IsTextFault (borrowed_view value.now)))) }
{
    match value.as_str() {
        Some(text) => unit_of_text(alloc, path, text),
        None => Err(no_text(alloc, path)),
    }
}

// The unit that a text says.
fn unit_of_text(
    alloc: Global,
    path: &ModulePath,
    text: &str,
) -> Result<TranslationUnit, ResolveError>
    ensures said { IfOk result (λ u. TextSays text.now (spelled (unit_view u))) }
    ensures refused { IfErr result (OrMemory (IsRefusedWith (IsUnreadable text.now))) }
{
    match WeslText.read(alloc, text) {
        Ok(unit) => Ok(unit),
        Err(fault) => Err(refused_at(alloc, path, fault)),
    }
}

// The refusal of a unit that is no text.
fn no_text(alloc: Global, path: &ModulePath) -> ResolveError
    ensures { OrMemory (IsRefusedWith IsNoText) result }
{
    match String::from_str(alloc, "expected a text") {
        Ok(reason) => refused(alloc, Error::BadTree(reason), path, None, None),
        Err(_) => ResolveError::Memory,
    }
}

// The refusal that tells a fault, its place, and the path. Want of memory stays what it is.
fn refused_at(alloc: Global, path: &ModulePath, fault: Diagnostic) -> ResolveError
    ensures { OrMemory (IsRefusedFor (λ e. e ≡ (out-Diagnostic fault).error)) result }
{
    if fault.error.is_memory() {
        return ResolveError::Memory;
    }
    match path.try_clone(alloc).ok() {
        Some(module) => told_of(alloc, module, fault),
        None => ResolveError::Memory,
    }
}

// The same, of a fault that is not want of memory.
fn told_of(alloc: Global, module: ModulePath, fault: Diagnostic) -> ResolveError
    ensures { OrMemory (IsRefusedWith (λ e. e ≡ (out-Diagnostic fault).error)) result }
{
    let span = fault.span;
    let told = Diagnostic {
        error: fault.into_error(),
        declaration: None,
        module: Some(module),
        display: None,
        span,
        source: None,
    };
    match Box::new(alloc, told) {
        Ok(told) => ResolveError::Error(told),
        Err(_) => ResolveError::Memory,
    }
}
