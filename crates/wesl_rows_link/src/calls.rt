//! The calls by their names: what is not among the calls of one list is looked up in the next.
use crate::{chains, links, manglers, names, packages, reasons, resolvers, tables};
use serde_json::Value;
use wesl_mangle::{EscapeMangler, NoMangler, UnicodeMangler};
use wesl_resolve_base::NoResolver;
use wesl_rows_base::Row;

/// What the call of a row answers.
pub fn answered(row: Row<'_>) -> Value {
    match row.text("call") {
        "resolve_lazy" => links::mangled(row, false),
        "resolve_eager" => links::mangled(row, true),
        "Resolutions::new_uninit" => links::nothing(row),
        "Resolutions::mangle, or what stands" => links::mangled_or_left(row),
        "resolve_lazy, then names_clash" => links::clash(row),
        "resolve_lazy of a chain" => chains::counted(row, false),
        "resolve_eager of a chain" => chains::counted(row, true),
        "Resolutions::new_uninit, then reason" => reasons::of_nothing(row),
        "resolve_lazy, then reason" => reasons::of_item(row, false),
        "resolve_eager, then reason" => reasons::of_item(row, true),
        "resolve_lazy, then module_reason" => reasons::of_module(row, false),
        "resolve_eager, then module_reason" => reasons::of_module(row, true),
        "wesl_link_reach::link_table" => tables::linked(row),
        "Interner::intern, or what stands" => names::interned_or_left(row),
        "Names::add, or what stands" => names::added_or_left(row),
        call => of_manglers(row, call),
    }
}

/// Calls of manglers.
fn of_manglers(row: Row<'_>, call: &str) -> Value {
    match call {
        "EscapeMangler::mangle" => manglers::named(row, &mut EscapeMangler),
        "EscapeMangler::unmangle" => manglers::read(row, &EscapeMangler, row.text("name")),
        "EscapeMangler::is_reversible" => manglers::reversible(row),
        "UnicodeMangler::mangle" => manglers::named(row, &mut UnicodeMangler),
        "UnicodeMangler::unmangle" => manglers::read(row, &UnicodeMangler, row.text("name")),
        "UnicodeMangler::mangle_types" => manglers::written_variant(row),
        "HashMangler::mangle" => manglers::numbered(row),
        "HashMangler::unmangle" => manglers::read_by_numbers(row),
        "NoMangler::unmangle" => manglers::read(row, &NoMangler, row.text("name")),
        "EscapeMangler::mangle_types" => manglers::variant(row, &EscapeMangler),
        "NoMangler::mangle_types" => manglers::variant(row, &NoMangler),
        "HashMangler::mangle_types" => manglers::variant_of_numbers(row),
        "CacheMangler::mangle_types" => manglers::variant_of_record(row),
        "Mangler of a box" => manglers::boxed_mangler(row),
        "Mangler of a reference" => manglers::lent_mangler(row),
        "CacheMangler::unmangle" => manglers::remembered(row),
        "CacheMangler::mangle, or what stands" => manglers::remembered_or_left(row),
        _ => of_resolvers(row, call),
    }
}

/// Calls of resolvers.
fn of_resolvers(row: Row<'_>, call: &str) -> Value {
    match call {
        "NoResolver::resolve_source" => resolvers::source(row, NoResolver),
        "NoResolver::resolve_module" => resolvers::module(row, NoResolver),
        "NoResolver::display_name" => resolvers::name(row, NoResolver),
        "VirtualResolver::modules" => resolvers::listed(row, resolvers::holding(row)),
        "VirtualResolver::get_module" => resolvers::stored(row),
        "VirtualResolver::resolve_module" => resolvers::module(row, resolvers::holding(row)),
        "VirtualResolver::display_name" => resolvers::name(row, resolvers::holding(row)),
        "VirtualResolver::add_module, or what stands" => resolvers::added_or_left(row),
        "Router::resolve_source" => resolvers::source(row, resolvers::routing(row)),
        "Router::resolve_module of mounts" => resolvers::module(row, resolvers::routing(row)),
        "Router::display_name" => resolvers::name(row, resolvers::unrouting(row)),
        "Router::resolve_module" => resolvers::module(row, resolvers::unrouting(row)),
        "Router::mount_resolver, or what stands" => resolvers::mounted_or_left(row),
        "PkgResolver::resolve_source" => resolvers::source(row, packages::packages(row)),
        "PkgResolver::resolve_module" => resolvers::module(row, packages::packages(row)),
        "PkgResolver::display_name" => resolvers::name(row, packages::packages(row)),
        "PkgResolver::add_package, or what stands" => packages::added_or_left(row),
        "StandardResolver::resolve_source" => resolvers::source(row, packages::standard(row)),
        "StandardResolver::resolve_module" => resolvers::module(row, packages::standard(row)),
        "StandardResolver::display_name" => resolvers::name(row, packages::standard(row)),
        "StandardResolver::add_package, or what stands" => packages::added_beside_or_left(row),
        "Resolver of a box, resolve_source" => resolvers::boxed_source(row),
        "Resolver of a box, resolve_module" => resolvers::boxed_module(row),
        "equal_modules" => packages::modules_are_equal(row),
        "equal_packages" => packages::packages_are_equal(row),
        _ => row.text_value("no such row"),
    }
}
