//! Resolvers in boxes, and a resolver whose units a stored function changes.
ghost use Rattle.std.specs.Prelude.{◌≡◌};
ghost use Rattle.wesl_tree_syntax.specs.Unit.{spelled, empty_unit};

use serde_json::Value;
use std::alloc::Global;
use wesl_resolve::{Preprocessor, Router, VirtualResolver};
use wesl_resolve_base::{Resolver, UnitText};
use wesl_rows_base::{List, Object, Row};
use wesl_tree::TranslationUnit;
use wesl_tree_names::{Diagnostic, Error, ImportError, ResolveError};

/// Every text but `bad` and `large` says the empty unit; for `large` there is no memory.
#[derive(Clone, Copy)]
struct Empty;

impl UnitText for Empty {
    ghost use Rattle.std.proofs.Common.{◌≡◌, ◌∙◌, sym};
    ghost use Rattle.wesl_tree_syntax.specs.Unit.{spelled, empty_unit};

    ghost reads = { λ _ text u. u ≡ spelled empty_unit };

    ghost unreadable = { λ _ text e. Unit {0} };

    ghost prints = { λ _ u text. u ≡ spelled empty_unit };

    fn read(&self, alloc: Global, text: &str) -> Result<TranslationUnit, Diagnostic> {
        if text == "bad" {
            return Err(Diagnostic::of(Error::NotJson));
        }
        if text == "large" {
            return Err(Diagnostic::of(Error::Memory));
        }
        Ok(TranslationUnit::new(alloc))
    }

    fn print(&self, alloc: Global, unit: &TranslationUnit) -> Result<String, Diagnostic> {
        if unit.same_spelling(&TranslationUnit::new(alloc)) {
            return Ok(String::from_str(alloc, "nothing")?);
        }
        Err(Diagnostic::of(Error::Memory))
    }

    ghost reads_back = { λ s u v text paths printed read. read ∙ sym printed };
}

/// A resolver that has this source at the path of this text.
fn holding(row: Row<'_>, path: &str, source: &str) -> VirtualResolver<Empty> {
    let mut modules = VirtualResolver::new(row.alloc, Empty);
    row.done(modules.add_module(row.rooted_of(path), row.copy_of(source)));
    modules
}

/// The source that a resolver gives at the path of this text.
fn source<R: Resolver>(row: Row<'_>, resolver: &mut R, path: &str) -> Value
    requires { R.ready resolver.old }
    ensures { R.ready resolver.new }
{
    let path = row.rooted_of(path);
    Value::String(row.or(
        resolver.resolve_source(row.alloc, &path),
        String::new(row.alloc),
    ))
}

/// The source at the row's `path`, by a router over these boxes, of which the first is mounted at `package::a`.
fn routed_by(
    row: Row<'_>,
    mounted: Box<VirtualResolver<Empty>>,
    fallback: Box<VirtualResolver<Empty>>,
) -> Value {
    let mut router: Router = Router::new(row.alloc);
    row.done(router.mount_resolver(row.rooted_of("package::a"), mounted));
    router.mount_fallback_resolver(fallback);
    source(row, &mut router, row.text("path"))
}

/// The source at the row's `path`, by a router over boxes: at `package::a` one that has `package::b`, and as the fallback
/// one that has `package::a`.
pub fn routed(row: Row<'_>) -> Value {
    match row.boxed(holding(row, "package::b", "mounted")) {
        Some(mounted) => match row.boxed(holding(row, "package::a", "fallback")) {
            Some(fallback) => routed_by(row, mounted, fallback),
            None => Value::Null,
        },
        None => Value::Null,
    }
}

/// What is told of the module at this path: whether it is the empty unit, or its refusal, with the module, the source and
/// the display name.
fn told<R: Resolver>(row: Row<'_>, resolver: &mut R, path: &str) -> Value
    requires { R.ready resolver.old }
    ensures { R.ready resolver.new }
{
    let path = row.rooted_of(path);
    match row.told(resolver.resolve_module(row.alloc, &path)) {
        Ok(unit) => Value::Bool(unit.same_spelling(&TranslationUnit::new(row.alloc))),
        Err(fault) => fault,
    }
}

/// Leaves a unit as it is.
pub fn passed(unit: TranslationUnit) -> Result<TranslationUnit, Error> {
    Ok(unit)
}

/// Wants memory for every unit.
pub fn starved(_: TranslationUnit) -> Result<TranslationUnit, Error> {
    Err(Error::Memory)
}

/// Wants memory for every unit, as a resolver says it.
pub fn starved_as_resolver(_: TranslationUnit) -> Result<TranslationUnit, Error> {
    Err(Error::Resolve(ResolveError::Memory))
}

/// Wants memory for every unit, as an import says it.
pub fn starved_as_import(_: TranslationUnit) -> Result<TranslationUnit, Error> {
    Err(Error::Import(ImportError::ResolveError(ResolveError::Memory)))
}

/// The same as `starved`, as a resolver answers it.
fn asked(_: TranslationUnit) -> Result<TranslationUnit, ResolveError> {
    Err(ResolveError::Memory)
}

/// Wants memory for every unit, since a resolver does that it asks.
pub fn starved_by_resolver(unit: TranslationUnit) -> Result<TranslationUnit, Error> {
    Ok(asked(unit)?)
}

/// Refuses every unit.
pub fn refused(_: TranslationUnit) -> Result<TranslationUnit, Error> {
    Err(Error::NotNormalType)
}

/// What a preprocessor tells of the module `package::a`: one whose function refuses every unit, whose sources stay, and one
/// whose function leaves it as it is.
pub fn preprocessed(row: Row<'_>) -> Value {
    let mut held = holding(row, "package::a", "a");
    let mut refusing = Preprocessor::new(&mut held, refused);
    let mut answer = Object::new(row.alloc);
    answer.put("refused", told(row, &mut refusing, "package::a"));
    answer.put("source", source(row, &mut refusing, "package::a"));
    let mut passing = Preprocessor::new(held, passed);
    answer.put("passed", told(row, &mut passing, "package::a"));
    answer.end(row)
}

/// What is told of a module where its reading wants memory, where it is read, and where a function that changes it wants
/// memory.
pub fn unread(row: Row<'_>) -> Value {
    let mut large = holding(row, "package::a", "large");
    let mut held = holding(row, "package::a", "a");
    let mut outcomes = List::new(row.alloc);
    outcomes.put(told(row, &mut large, "package::a"));
    outcomes.put(told(row, &mut held, "package::a"));
    let mut refusing = Preprocessor::new(held, starved);
    outcomes.put(told(row, &mut refusing, "package::a"));
    outcomes.end(row)
}

/// What is told of a module by three preprocessors whose functions want memory, and say so within another error.
pub fn unread_in_error(row: Row<'_>) -> Value {
    let mut held = holding(row, "package::a", "a");
    let mut as_resolver = Preprocessor::new(&mut held, starved_as_resolver);
    let mut outcomes = List::new(row.alloc);
    outcomes.put(told(row, &mut as_resolver, "package::a"));
    let mut as_import = Preprocessor::new(&mut held, starved_as_import);
    outcomes.put(told(row, &mut as_import, "package::a"));
    let mut by_resolver = Preprocessor::new(held, starved_by_resolver);
    outcomes.put(told(row, &mut by_resolver, "package::a"));
    outcomes.end(row)
}
