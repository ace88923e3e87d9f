//! The line of a fault: its name, its arguments, and where it stands, as far as that is told. Of errors that hold one another
//! the innermost is told.
ghost use Rattle.std.specs.Prelude.{◌≡◌, ◌∷◌, [], IfOk, map, option_map, string_bytes, codes, decimal};
ghost use Rattle.serde_json.specs.Data.{array, string, member, no_members, put};
ghost use Rattle.serde_json.specs.View.{view, items_view, members_view};
ghost use Rattle.wesl_json_form.specs.Writing.{span_value};
ghost use Rattle.wesl_program.specs.Fault.{fault, fault_of, fault_of_condition, fault_of_import, fault_of_resolver, fault_of_validation, path_text};
ghost use Rattle.wesl_program.specs.Line.{fault_line, fault_members, line_of, texts_value, told_value, with_home, with_span};
ghost use Rattle.wesl_program.specs.Places.{nowhere};
ghost use Rattle.wesl_program.specs.Told.{where_told};

use crate::path_text::path_text;
use crate::place::Told;
use crate::text_line::text_line;
use serde_json::{Map, Value, json, put};
use std::alloc::{AllocError, Global};
use wesl_tree::{CondCompError, Error, ImportError, ModulePath, ResolveError, Span, ValidateError};

/// The line of an error that stands at a place.
pub fn placed_line(alloc: Global, error: &Error, place: Told<'_>) -> Result<String, AllocError>
    ensures { IfOk result (λ s. string_bytes s ≡ line_of (told_value (fault_of error.now) (where_told place.entry))) }
{
    let value = told_value(alloc, error, place)?;
    text_line(alloc, &value)
}

/// The line of a fault of this name with these arguments, which tells no place.
pub fn named_line(alloc: Global, name: &str, arguments: &[&str]) -> Result<String, AllocError>
    ensures { IfOk result (λ s. string_bytes s ≡ fault_line (fault name.now (map (λ t. t.now) arguments.now))) }
{
    let value = named_value(alloc, name, arguments)?;
    text_line(alloc, &value)
}

// A fault of this name with these arguments, which tells no place.
fn named_value(alloc: Global, name: &str, arguments: &[&str]) -> Result<Value, AllocError>
    ensures { IfOk result (λ v. view v ≡ told_value (fault name.now (map (λ t. t.now) arguments.now)) nowhere) }
{
    let members = fault_members(alloc, name, arguments)?;
    Ok(Value::Object(members))
}

// An error and where it stands.
fn told_value(alloc: Global, error: &Error, place: Told<'_>) -> Result<Value, AllocError>
    ensures { IfOk result (λ v. view v ≡ told_value (fault_of error.now) (where_told place.entry)) }
{
    let members = error_members(alloc, error)?;
    let members = with_module(alloc, members, place.module)?;
    let members = with_span(alloc, members, place.span)?;
    Ok(Value::Object(members))
}

// With the module that is told.
fn with_module(
    alloc: Global,
    members: Map<String, Value>,
    module: Option<&ModulePath>,
) -> Result<Map<String, Value>, AllocError>
    ensures { IfOk result (λ ms. members_view ms.entries ≡ with_home (option_map (λ p. path_text p.now) «module».entry) (members_view members.entries)) }
{
    let Some(module) = module else {
        return Ok(members);
    };
    let path = path_text(alloc, module)?;
    with_member(alloc, members, "module", Value::String(path))
}

// With the place that is told.
fn with_span(
    alloc: Global,
    members: Map<String, Value>,
    span: Option<Span>,
) -> Result<Map<String, Value>, AllocError>
    ensures { IfOk result (λ ms. members_view ms.entries ≡ with_span (option_map (λ s. (s.start, s.end)) span) (members_view members.entries)) }
{
    let Some(span) = span else {
        return Ok(members);
    };
    let place = span_value(alloc, span)?;
    with_member(alloc, members, "span", place)
}

fn span_value(alloc: Global, span: Span) -> Result<Value, AllocError>
    ensures { IfOk result (λ v. view v ≡ span_value span.start span.end) }
{
    json!(in alloc; [span.start, span.end])
}

// With a value at a key.
fn with_member(
    alloc: Global,
    mut members: Map<String, Value>,
    key: &str,
    value: Value,
) -> Result<Map<String, Value>, AllocError>
    ensures { IfOk result (λ ms. members_view ms.entries ≡ put key.now (view value) (members_view members.entries)) }
{
    put(&mut members, alloc, key, value)?;
    Ok(members)
}

#[cycle(errors)]
fn error_members(alloc: Global, error: &Error) -> Result<Map<String, Value>, AllocError>
    ensures { IfOk result (λ ms. members_view ms.entries ≡ fault_members (fault_of error.now)) }
{
    match error {
        Error::CondComp(inner) => condition_members(alloc, inner),
        Error::Import(inner) => import_members(alloc, inner),
        Error::Resolve(inner) => resolver_members(alloc, inner),
        Error::Validate(inner) => validation_members(alloc, inner),
        Error::ModuleLimit(limit) => limit_members(alloc, *limit),
        Error::NotNormalType => fault_members(alloc, "NotNormalType", &[]),
        Error::NotJson => fault_members(alloc, "NotJson", &[]),
        Error::BadTree(place) => fault_members(alloc, "BadTree", &[place.as_str()]),
        Error::BadBundle(place) => fault_members(alloc, "BadBundle", &[place.as_str()]),
        Error::Memory => fault_members(alloc, "Memory", &[]),
    }
}

#[cycle(errors)]
fn import_members(alloc: Global, error: &ImportError) -> Result<Map<String, Value>, AllocError>
    ensures { IfOk result (λ ms. members_view ms.entries ≡ fault_members (fault_of_import error.now)) }
{
    match error {
        ImportError::DuplicateSymbol(name) => fault_members(
            alloc,
            "DuplicateSymbol",
            &[name.as_str()],
        ),
        ImportError::ResolveError(inner) => resolver_members(alloc, inner),
        ImportError::MissingDecl(path, name) => {
            let path = path_text(alloc, path)?;
            fault_members(alloc, "MissingDecl", &[path.as_str(), name.as_str()])
        }
        ImportError::Private(name, path) => {
            let path = path_text(alloc, path)?;
            fault_members(alloc, "Private", &[name.as_str(), path.as_str()])
        }
        ImportError::AmbiguousSymbol(name) => fault_members(
            alloc,
            "AmbiguousSymbol",
            &[name.as_str()],
        ),
        ImportError::TooManyFlags(path) => {
            let path = path_text(alloc, path)?;
            fault_members(alloc, "TooManyFlags", &[path.as_str()])
        }
    }
}

#[cycle(errors)]
fn resolver_members(alloc: Global, error: &ResolveError) -> Result<Map<String, Value>, AllocError>
    ensures { IfOk result (λ ms. members_view ms.entries ≡ fault_members (fault_of_resolver error.now)) }
{
    match error {
        ResolveError::FileNotFound(file, message) => fault_members(
            alloc,
            "FileNotFound",
            &[file.as_str(), message.as_str()],
        ),
        ResolveError::ModuleNotFound(path, message) => {
            let path = path_text(alloc, path)?;
            fault_members(alloc, "ModuleNotFound", &[path.as_str(), message.as_str()])
        }
        ResolveError::Error(diagnostic) => error_members(alloc, &diagnostic.error),
        ResolveError::Memory => fault_members(alloc, "Memory", &[]),
    }
}

fn condition_members(alloc: Global, error: &CondCompError) -> Result<Map<String, Value>, AllocError>
    ensures { IfOk result (λ ms. members_view ms.entries ≡ fault_members (fault_of_condition error.now)) }
{
    match error {
        CondCompError::InvalidFeatureFlag(name) => fault_members(
            alloc,
            "InvalidFeatureFlag",
            &[name.as_str()],
        ),
        CondCompError::UnexpectedFeatureFlag(name) => fault_members(
            alloc,
            "UnexpectedFeatureFlag",
            &[name.as_str()],
        ),
        CondCompError::InvalidExpression => fault_members(alloc, "InvalidExpression", &[]),
        CondCompError::NoPrecedingIf => fault_members(alloc, "NoPrecedingIf", &[]),
        CondCompError::DuplicateIf => fault_members(alloc, "DuplicateIf", &[]),
    }
}

fn validation_members(
    alloc: Global,
    error: &ValidateError,
) -> Result<Map<String, Value>, AllocError>
    ensures { IfOk result (λ ms. members_view ms.entries ≡ fault_members (fault_of_validation error.now)) }
{
    match error {
        ValidateError::UndefinedSymbol(name) => fault_members(
            alloc,
            "UndefinedSymbol",
            &[name.as_str()],
        ),
        ValidateError::ParamCount(name, expected, got) => {
            let expected = expected.to_string(alloc)?;
            let got = got.to_string(alloc)?;
            fault_members(
                alloc,
                "ParamCount",
                &[name.as_str(), expected.as_str(), got.as_str()],
            )
        }
        ValidateError::NotCallable(name) => fault_members(alloc, "NotCallable", &[name.as_str()]),
        ValidateError::Duplicate(name) => fault_members(alloc, "Duplicate", &[name.as_str()]),
        ValidateError::Cycle(name, via) => fault_members(
            alloc,
            "Cycle",
            &[name.as_str(), via.as_str()],
        ),
    }
}

fn limit_members(alloc: Global, limit: usize) -> Result<Map<String, Value>, AllocError>
    ensures { IfOk result (λ ms. members_view ms.entries ≡ fault_members (fault (codes "ModuleLimit") (decimal limit ∷ []))) }
{
    let limit = limit.to_string(alloc)?;
    fault_members(alloc, "ModuleLimit", &[limit.as_str()])
}

// A fault of this name with these arguments.
fn fault_members(
    alloc: Global,
    name: &str,
    arguments: &[&str],
) -> Result<Map<String, Value>, AllocError>
    ensures { IfOk result (λ ms. members_view ms.entries ≡ fault_members (fault name.now (map (λ t. t.now) arguments.now))) }
{
    let arguments = texts(alloc, arguments)?;
    fault_object(alloc, name, arguments)
}

fn texts(alloc: Global, arguments: &[&str]) -> Result<Vec<Value>, AllocError>
    ensures { IfOk result (λ v. items_view v.items ≡ texts_value (map (λ t. t.now) arguments.now)) }
{
    let mut texts = Vec::with_capacity(alloc, arguments.len())?;
    for argument in arguments {
        texts.push(Value::try_from_str(alloc, argument)?)?;
    }
    Ok(texts)
}

fn fault_object(
    alloc: Global,
    name: &str,
    arguments: Vec<Value>,
) -> Result<Map<String, Value>, AllocError>
    ensures { IfOk result (λ ms. members_view ms.entries ≡ member (codes "args") (array (items_view arguments.items)) (member (codes "fault") (string name.now) no_members)) }
{
    let name = Value::try_from_str(alloc, name)?;
    let members = with_member(alloc, Map::new(alloc), "args", Value::Array(arguments))?;
    with_member(alloc, members, "fault", name)
}
