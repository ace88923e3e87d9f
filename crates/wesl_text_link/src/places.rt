//! What a diagnostic tells: of errors that hold one another the innermost, in the innermost module that is known and at the innermost
//! place.
use crate::texts::Cause;
use wesl_tree::{Diagnostic, Error, ImportError, ModulePath, ResolveError, Span};

/// A fault, and where it stands as far as that is known.
#[derive(Clone, Copy)]
pub(crate) struct Found<'d> {
    pub(crate) module: Option<&'d ModulePath>,
    pub(crate) span: Option<Span>,
    pub(crate) cause: Cause<'d>,
}

/// What a diagnostic tells.
pub(crate) fn found_in(diagnostic: &Diagnostic) -> Found<'_> {
    let outside = Found {
        module: diagnostic.module.as_ref(),
        span: diagnostic.span,
        cause: Cause::Other(&diagnostic.error),
    };
    found_of_error(&diagnostic.error, outside)
}

#[cycle(found)]
fn found_of_error<'d>(error: &'d Error, outside: Found<'d>) -> Found<'d> {
    match error {
        Error::CondComp(inner) => caused(outside, Cause::Condition(inner)),
        Error::Validate(inner) => caused(outside, Cause::Validity(inner)),
        Error::Import(inner) => found_of_import(inner, outside),
        Error::Resolve(inner) => found_of_refusal(inner, outside),
        _ => caused(outside, Cause::Other(error)),
    }
}

#[cycle(found)]
fn found_of_import<'d>(error: &'d ImportError, outside: Found<'d>) -> Found<'d> {
    match error {
        ImportError::ResolveError(inner) => found_of_refusal(inner, outside),
        _ => caused(outside, Cause::Import(error)),
    }
}

#[cycle(found)]
fn found_of_refusal<'d>(error: &'d ResolveError, outside: Found<'d>) -> Found<'d> {
    match error {
        ResolveError::Error(diagnostic) => found_of_error(
            &diagnostic.error,
            Found {
                module: diagnostic.module.as_ref().or(outside.module),
                span: diagnostic.span.or(outside.span),
                cause: outside.cause,
            },
        ),
        _ => caused(outside, Cause::Refusal(error)),
    }
}

// The same place with another cause.
fn caused<'d>(outside: Found<'d>, cause: Cause<'d>) -> Found<'d> {
    Found {
        module: outside.module,
        span: outside.span,
        cause,
    }
}
