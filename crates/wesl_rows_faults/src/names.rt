//! The names by which resolvers show modules that another resolver shows.
use crate::resolvers::passed;
use crate::shown::Shown;
use serde_json::Value;
use wesl::{NoMangler, SourceMapper};
use wesl_json::JsonText;
use wesl_resolve::{Preprocessor, Router, StandardResolver};
use wesl_resolve_base::{NoResolver, Resolver};
use wesl_rows_base::Row;

/// The name by which a resolver shows the row's `path`, null where it has none.
fn name<R: Resolver + Drop>(row: Row<'_>, resolver: R) -> Value
    requires { R.ready resolver }
{
    let path = row.rooted("path");
    match row.told(resolver.display_name(row.alloc, &path)) {
        Ok(Some(name)) => Value::String(name),
        Ok(None) => Value::Null,
        Err(fault) => fault,
    }
}

/// What has no module, and shows each path by its text.
fn texts(row: Row<'_>) -> Shown<NoResolver> {
    Shown::new(row, NoResolver)
}

/// A router over such resolvers, of which one is mounted at the path `mounted_at` and one is the fallback, if the row has one.
fn routing(row: Row<'_>) -> Router<Shown<NoResolver>> {
    let mut router = Router::new(row.alloc);
    row.done(router.mount_resolver(row.rooted("mounted_at"), texts(row)));
    if row.has("fallback") {
        router.mount_fallback_resolver(texts(row));
    }
    router
}

/// The name by which a resolver over one that shows each path by its text shows the row's `path`, null where it has none.
pub fn told(row: Row<'_>) -> Value {
    let inner = texts(row);
    match row.text("by") {
        "a box" => match row.boxed(inner) {
            Some(boxed) => name(row, boxed),
            None => Value::Null,
        },
        "a preprocessor" => name(row, Preprocessor::new(inner, passed)),
        "a router" => name(row, routing(row)),
        "packages beside it" => name(row, StandardResolver::new(row.alloc, inner, JsonText)),
        "a mapper" => {
            let root = row.rooted("path");
            name(row, SourceMapper::new(row.alloc, root, inner, NoMangler))
        }
        _ => name(row, inner),
    }
}
