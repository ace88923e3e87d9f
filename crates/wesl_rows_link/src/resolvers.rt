//! Resolvers: where modules come from, and what a resolver holds after a call that adds to it.
ghost use Rattle.std.specs.Prelude.{◌≡◌, false};

use serde_json::Value;
use wesl_json::JsonText;
use wesl_resolve::{Router, VirtualResolver};
use wesl_resolve_base::{NoResolver, Resolver};
use wesl_rows_base::{List, Row, is_refused, item_value, stands, text_of};
use wesl_tree::ResolveError;

/// The source that a resolver gives for the path of a row.
pub fn source<R: Resolver + Drop>(row: Row<'_>, resolver: R) -> Value
    requires { R.ready resolver }
{
    let mut resolver = resolver;
    let path = row.rooted("path");
    match row.told(resolver.resolve_source(row.alloc, &path)) {
        Ok(source) => Value::String(source),
        Err(fault) => fault,
    }
}

/// The unit that a resolver gives for the path of a row, in the form of the row.
pub fn module<R: Resolver + Drop>(row: Row<'_>, resolver: R) -> Value
    requires { R.ready resolver }
{
    let mut resolver = resolver;
    let path = row.rooted("path");
    match row.told(resolver.resolve_module(row.alloc, &path)) {
        Ok(unit) => row.written(&unit),
        Err(fault) => fault,
    }
}

/// The name by which a resolver shows the path of a row, null where it has none.
pub fn name<R: Resolver + Drop>(row: Row<'_>, resolver: R) -> Value
    requires { R.ready resolver }
{
    let path = row.rooted("path");
    match row.told(resolver.display_name(row.alloc, &path)) {
        Ok(Some(name)) => Value::String(name),
        Ok(None) => Value::Null,
        Err(fault) => fault,
    }
}

/// The answer of a source, null where there is none; want of memory is noted.
fn source_or_null(row: Row<'_>, source: Result<String, ResolveError>) -> Value {
    match source {
        Ok(source) => Value::String(source),
        Err(error) => {
            row.refused_if(matches!(error, ResolveError::Memory));
            // as a generic function lets go of it, which costs the proof a fraction
            drop(error);
            Value::Null
        }
    }
}

/// The source that a resolver gives for a path, null where it has none.
fn given<R: Resolver>(row: Row<'_>, resolver: &mut R, text: &str) -> Value
    requires { R.ready resolver.old }
    ensures { R.ready resolver.new }
{
    let path = row.rooted_of(text);
    source_or_null(row, resolver.resolve_source(row.alloc, &path))
}

/// What a resolver gives as the sources of the modules `asked`, null where it has none.
pub fn sources<R: Resolver + Drop>(row: Row<'_>, resolver: R) -> Value
    requires { R.ready resolver }
{
    let mut resolver = resolver;
    let mut sources = List::new(row.alloc);
    for text in row.list("asked") {
        sources.put(given(row, &mut resolver, text_of(text)));
    }
    sources.end(row)
}

/// The paths and the sources of a resolver's modules.
pub fn listed(row: Row<'_>, modules: VirtualResolver<JsonText>) -> Value {
    let mut pairs = List::new(row.alloc);
    match modules.modules(row.alloc).ok() {
        Some(held) => {
            for (path, source) in held.as_slice() {
                pairs.put(item_value(row, path, source));
            }
        }
        None => row.refused_if(true),
    }
    pairs.end(row)
}

/// A resolver of `modules`, to which the `unit` of the row is added (at `unit_at`), if it has one.
pub fn holding(row: Row<'_>) -> VirtualResolver<JsonText> {
    let mut modules = row.modules("modules");
    if row.has("unit") {
        let path = row.rooted("unit_at");
        row.done(modules.add_translation_unit(row.alloc, path, row.unit("unit")));
    }
    modules
}

/// The source that a resolver in a box gives for the path of a row.
pub fn boxed_source(row: Row<'_>) -> Value {
    match row.boxed(holding(row)) {
        Some(modules) => source(row, modules),
        None => Value::Null,
    }
}

/// The unit that a resolver in a box gives for the path of a row.
pub fn boxed_module(row: Row<'_>) -> Value {
    match row.boxed(holding(row)) {
        Some(modules) => module(row, modules),
        None => Value::Null,
    }
}

/// The stored text of the module at the path of a row.
pub fn stored(row: Row<'_>) -> Value {
    let path = row.rooted("path");
    let modules = holding(row);
    match row.told(modules.get_module(row.alloc, &path)) {
        Ok(text) => row.text_value(text),
        Err(fault) => fault,
    }
}

/// The modules of a resolver of `modules` to which one more is added, with the source or the unit of `then`, or, where
/// that is refused, those that it has then.
pub fn added_or_left(row: Row<'_>) -> Value {
    let mut modules = row.modules("modules");
    let is_refused = is_refused(row.part("then").added_to(&mut modules));
    stands(row, is_refused, listed(row, modules))
}

/// Mounts the modules at a key of a row at the path of another key.
fn mount(row: Row<'_>, at: &str, key: &str, router: &mut Router<VirtualResolver<JsonText>>) {
    let path = row.rooted(at);
    row.done(router.mount_resolver(path, row.modules(key)));
}

/// A router with two mounts and a fallback, and after that with a third mount, if the row has one.
pub fn routing(row: Row<'_>) -> Router<VirtualResolver<JsonText>> {
    let mut router = Router::new(row.alloc);
    mount(row, "first_at", "first", &mut router);
    mount(row, "second_at", "second", &mut router);
    router.mount_fallback_resolver(row.modules("fallback"));
    if row.has("third") {
        mount(row, "third_at", "third", &mut router);
    }
    router
}

/// A router that has one mount, of a resolver without modules, and no fallback.
pub fn unrouting(row: Row<'_>) -> Router<NoResolver> {
    let mut router: Router<NoResolver> = Router::new(row.alloc);
    row.done(router.mount_resolver(row.rooted("no_resolver_at"), NoResolver));
    router
}

/// What a router gives with the modules `first` mounted at `first_at`, to which those of `then` are mounted at `then_at`,
/// or, where that is refused, what it gives then.
pub fn mounted_or_left(row: Row<'_>) -> Value {
    let mut router = Router::new(row.alloc);
    mount(row, "first_at", "first", &mut router);
    let path = row.rooted("then_at");
    let is_refused = is_refused(router.mount_resolver(path, row.modules("then")));
    stands(row, is_refused, sources(row, router))
}
