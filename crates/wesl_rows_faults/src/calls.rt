//! The calls by their names.
use crate::{asks, deep, endless, errors, maps, names, nodes, refusals, resolvers, streams};
use serde_json::Value;
use wesl_rows_base::Row;

/// What the call of a row answers. What is not among the calls here is looked up among those on deep units.
pub fn answered(row: Row<'_>) -> Value {
    match row.text("call") {
        "resolve_lazy, how often it asks for each path" => asks::counted(row),
        "Resolutions::mangle, the names that it asks for" => asks::names_asked(row),
        "a link by a resolver without end" => endless::linked_by(row, false),
        "a link by a resolver without memory" => endless::linked_by(row, true),
        "a link by a function without memory" => endless::refused_by_function(row),
        "a link by a function that wraps want of memory" => endless::refused_in_error(row),
        "Preprocessor::resolve_module of functions that wrap want of memory" => {
            resolvers::unread_in_error(row)
        }
        "Error::of_resolve" => errors::converted(row),
        "Error::from of want of memory" => errors::unwrapped(row),
        "ImportError, ResolveError as texts" => errors::told(row),
        "Diagnostic as a text" => errors::told_where(row),
        "TryClone::try_clone of a node with a span" => nodes::copied(row),
        "TranslationUnit::from_parts of a constant" => nodes::made(row),
        "== of spans" => nodes::spans_are_equal(row),
        "Router::resolve_source of boxes" => resolvers::routed(row),
        "Resolver::display_name of modules that are shown" => names::told(row),
        "Resolver::resolve_module of modules that are shown" => refusals::told_in_a_way(row),
        "a link of modules that are shown" => refusals::told_in_a_way(row),
        "link_under of modules that are shown" => refusals::told_under_features(row),
        "link_mapped, then the sources of its map" => maps::told(row, false),
        "find_mapped and finish, then the sources of the map" => maps::told(row, true),
        "Preprocessor::resolve_module" => resolvers::preprocessed(row),
        "VirtualResolver::resolve_module without memory" => resolvers::unread(row),
        "wesl::run on a reader that fails" => streams::unread(row),
        "wesl::run a byte at a time" => streams::slow(row),
        "wesl::run on a writer that fails" => streams::unwritten(row),
        "wesl::run on bytes that are no text" => streams::no_text(row),
        "JsonText::print of parentheses" => deep::parentheses_printed(row),
        call => Value::Bool(deep::is_right(row, call)),
    }
}
