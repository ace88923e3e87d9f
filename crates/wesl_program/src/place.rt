//! Where a fault stands. Of errors that hold one another the innermost is told, in the innermost module that is known and at
//! the innermost place that is known.
ghost use Rattle.std.specs.Prelude.{◌≡◌, None};
ghost use Rattle.wesl_tree_names.specs.declared.errors.Diagnostic.{out-Diagnostic};
ghost use Rattle.wesl_program.specs.Fault.{fault_of, fault_of_import, fault_of_resolver};
ghost use Rattle.wesl_program.specs.Places.{IsPlaceOf, MayStand, nowhere};
ghost use Rattle.wesl_program.specs.Told.{where_told};

use crate::refusal::Refusal;
use wesl_tree::{Diagnostic, Error, ImportError, ModulePath, ResolveError, Span};

/// Where a fault stands, as far as it is told.
#[derive(Clone, Copy)]
pub struct Told<'d> {
    /// The module that holds the fault.
    pub module: Option<&'d ModulePath>,
    /// The place in the module's source.
    pub span: Option<Span>,
}

/// Where the fault of a refusal stands: nowhere, where its place is not told.
pub(crate) fn place_told(refusal: &Refusal) -> Told<'_>
    ensures { MayStand refusal.now.is_placed (fault_of (out-Diagnostic refusal.now.diagnostic).error) (where_told result) }
{
    if refusal.is_placed {
        let diagnostic = &refusal.diagnostic;
        error_place(&diagnostic.error, within(nowhere(), diagnostic))
    } else {
        nowhere()
    }
}

// Where an error stands that was found at a place.
#[cycle(places)]
fn error_place<'d>(error: &'d Error, place: Told<'d>) -> Told<'d>
    ensures { IsPlaceOf (fault_of error.now) (where_told result) }
{
    match error {
        Error::CondComp(_) => place,
        Error::Import(inner) => import_place(inner, place),
        Error::Resolve(inner) => resolver_place(inner, place),
        Error::BadTree(_) => without_span(place),
        _ => nowhere(),
    }
}

#[cycle(places)]
fn import_place<'d>(error: &'d ImportError, place: Told<'d>) -> Told<'d>
    ensures { IsPlaceOf (fault_of_import error.now) (where_told result) }
{
    match error {
        ImportError::ResolveError(inner) => resolver_place(inner, place),
        ImportError::AmbiguousSymbol(_) | ImportError::TooManyFlags(_) => nowhere(),
        _ => without_span(place),
    }
}

#[cycle(places)]
fn resolver_place<'d>(error: &'d ResolveError, place: Told<'d>) -> Told<'d>
    ensures { IsPlaceOf (fault_of_resolver error.now) (where_told result) }
{
    match error {
        ResolveError::Error(diagnostic) => error_place(
            &diagnostic.error,
            within(place, diagnostic),
        ),
        _ => nowhere(),
    }
}

// The place that a diagnostic tells, and what it does not tell as it is told so far.
fn within<'d>(place: Told<'d>, diagnostic: &'d Diagnostic) -> Told<'d> {
    Told {
        module: diagnostic.module.as_ref().or(place.module),
        span: diagnostic.span.or(place.span),
    }
}

// The module alone.
fn without_span(place: Told<'_>) -> Told<'_>
    ensures { result.span ≡ None }
{
    Told {
        module: place.module,
        span: None,
    }
}

fn nowhere<'d>() -> Told<'d>
    ensures { where_told result ≡ nowhere }
{
    Told {
        module: None,
        span: None,
    }
}
