//! A resolver that never runs out of modules, or never has memory.
use crate::resolvers::{
    passed, starved, starved_as_import, starved_as_resolver, starved_by_resolver,
};
use serde_json::Value;
use std::alloc::Global;
use wesl_json::JsonText;
use wesl_link::{resolve_eager, resolve_lazy};
use wesl_resolve::{Preprocessor, Router};
use wesl_resolve_base::{Resolver, UnitText, copied, read_module};
use wesl_rows_base::Row;
use wesl_tree::TranslationUnit;
use wesl_tree_names::{ModulePath, ResolveError};

/// What every module of the endless resolver says, and the root too: its assertion needs a name of the module below it.
const BELOW: &str =
    r#"{"imports":[{"path":"self::m","content":{"item":"x","as":"y"}}],"declarations":[{"k":"assert","expr":"y"},{"k":"const","name":"x","init":true}]}"#;

/// Hands out a module at every path, or, where it is starved, answers want of memory at every path.
#[derive(Drop)]
struct Everywhere {
    is_starved: bool,
}

impl Resolver for Everywhere {
    ghost ready = { λ _. Unit {0} };

    ghost hands = { λ _ p u. Unit {0} };

    ghost refuses = { λ _ p e. Unit {0} };

    ghost source = { λ _ p text. Unit {0} };

    ghost lacks = { λ _ p e. Unit {0} };

    ghost shown = { λ _ p name. Unit {0} };

    fn resolve_source(&mut self, alloc: Global, _: &ModulePath) -> Result<String, ResolveError> {
        if self.is_starved {
            Err(ResolveError::Memory)
        } else {
            copied(alloc, BELOW)
        }
    }

    fn resolve_module(
        &mut self,
        alloc: Global,
        path: &ModulePath,
    ) -> Result<TranslationUnit, ResolveError> {
        if self.is_starved {
            Err(ResolveError::Memory)
        } else {
            read_module(&JsonText, alloc, path, BELOW)
        }
    }

    fn display_name(&self, _: Global, _: &ModulePath) -> Result<Option<String>, ResolveError> {
        if self.is_starved {
            Err(ResolveError::Memory)
        } else {
            Ok(None)
        }
    }
}

/// What is told of a link of the root, whose assertion needs a name of the module below it: lazily, or eagerly where the row
/// says so, with no more than `limit` modules.
fn linked<R: Resolver>(row: Row<'_>, resolver: &mut R) -> Value
    requires { R.ready resolver.old }
{
    let alloc = row.alloc;
    let at = row.rooted("path");
    let root = row.or(JsonText.read(alloc, BELOW), TranslationUnit::new(alloc));
    let limit = row.number("limit", 1000);
    let found = if row.has("eager") {
        resolve_eager(alloc, root, &at, resolver, limit)
    } else {
        resolve_lazy(alloc, &[], root, &at, resolver, limit)
    };
    match row.told(found) {
        Ok(_) => row.text_value("linked"),
        Err(fault) => fault,
    }
}

/// What is told of a link by a resolver in a box that is mounted in a router at the row's `path`.
fn mounted(row: Row<'_>, resolver: Everywhere) -> Value {
    match row.boxed(resolver) {
        Some(resolver) => {
            let mut router: Router = Router::new(row.alloc);
            row.done(router.mount_resolver(row.rooted("path"), resolver));
            linked(row, &mut router)
        }
        None => Value::Null,
    }
}

/// What is told of a link by a resolver in a box that is the fallback of a router.
fn fallen_back(row: Row<'_>, resolver: Everywhere) -> Value {
    match row.boxed(resolver) {
        Some(resolver) => {
            let mut router: Router = Router::new(row.alloc);
            router.mount_fallback_resolver(resolver);
            linked(row, &mut router)
        }
        None => Value::Null,
    }
}

/// What is told of a link where a module is handed out at every path, or, where it is starved, memory is wanting at every
/// path: by the resolver itself, or within what the row says.
pub fn linked_by(row: Row<'_>, is_starved: bool) -> Value {
    let mut resolver = Everywhere { is_starved };
    match row.text("within") {
        "mount" => mounted(row, resolver),
        "fallback" => fallen_back(row, resolver),
        "preprocessor" => linked(row, &mut Preprocessor::new(resolver, passed)),
        _ => linked(row, &mut resolver),
    }
}

/// What is told of a link where the function that changes units wants memory.
pub fn refused_by_function(row: Row<'_>) -> Value {
    let resolver = Everywhere { is_starved: false };
    linked(row, &mut Preprocessor::new(resolver, starved))
}

/// What is told of a link where such a function says so within another error, as the row says.
pub fn refused_in_error(row: Row<'_>) -> Value {
    let resolver = Everywhere { is_starved: false };
    match row.text("wants_memory") {
        "as a resolver" => linked(row, &mut Preprocessor::new(resolver, starved_as_resolver)),
        "as an import" => linked(row, &mut Preprocessor::new(resolver, starved_as_import)),
        _ => linked(row, &mut Preprocessor::new(resolver, starved_by_resolver)),
    }
}
