//! Packages, their equality, and resolvers of them, alone and beside local modules.
use crate::resolvers;
use serde_json::Value;
use wesl_json::JsonText;
use wesl_resolve::{PkgResolver, StandardResolver, VirtualResolver, equal_modules, equal_packages};
use wesl_resolve_base::{CodegenModule, CodegenPkg};
use wesl_rows_base::{Row, is_refused, stands, text_of};

/// A package of a root with these modules below it, whose source is its name.
fn package_of(
    row: Row<'_>,
    name: &str,
    submodules: Vec<CodegenModule>,
    dependencies: Vec<CodegenPkg>,
) -> CodegenPkg {
    CodegenPkg {
        crate_name: row.copy_of("crate"),
        root: CodegenModule {
            name: row.copy_of(name),
            source: row.copy_of(name),
            submodules,
        },
        dependencies,
    }
}

/// A package of a root alone.
fn package_named(row: Row<'_>, name: &str) -> CodegenPkg {
    package_of(row, name, Vec::new(row.alloc), Vec::new(row.alloc))
}

/// A module with none below it: a text is its name and its source, and an object has both.
fn leaf(row: Row<'_>) -> CodegenModule {
    let name = if row.has("name") {
        row.text("name")
    } else {
        text_of(row.value)
    };
    let source = if row.has("source") {
        row.text("source")
    } else {
        name
    };
    CodegenModule {
        name: row.copy_of(name),
        source: row.copy_of(source),
        submodules: Vec::new(row.alloc),
    }
}

/// The modules that a row lists, none of which has another below it.
fn submodules(row: Row<'_>) -> Vec<CodegenModule> {
    let mut modules = Vec::new(row.alloc);
    for module in row.list("submodules") {
        row.push(&mut modules, leaf(row.of(module)));
    }
    modules
}

/// The packages of the names that a row lists.
fn dependencies(row: Row<'_>) -> Vec<CodegenPkg> {
    let mut dependencies = Vec::new(row.alloc);
    for name in row.list("dependencies") {
        row.push(&mut dependencies, package_named(row, text_of(name)));
    }
    dependencies
}

/// The package that a row names, with its `submodules` and its `dependencies`.
fn package(row: Row<'_>) -> CodegenPkg {
    package_of(row, row.text("package"), submodules(row), dependencies(row))
}

/// The module that a row says, with those below it.
fn module(row: Row<'_>) -> CodegenModule {
    CodegenModule {
        name: row.owned("name"),
        source: row.owned("source"),
        submodules: submodules(row),
    }
}

/// The package that a row says by its fields.
fn whole_package(row: Row<'_>) -> CodegenPkg {
    CodegenPkg {
        crate_name: row.owned("crate_name"),
        root: module(row.part("root")),
        dependencies: dependencies(row),
    }
}

/// Whether the modules `one` and `other` of a row are equal.
pub fn modules_are_equal(row: Row<'_>) -> Value {
    let one = module(row.part("one"));
    let other = module(row.part("other"));
    Value::Bool(equal_modules(&one, &other))
}

/// Whether the packages `one` and `other` of a row are equal.
pub fn packages_are_equal(row: Row<'_>) -> Value {
    let one = whole_package(row.part("one"));
    let other = whole_package(row.part("other"));
    Value::Bool(equal_packages(&one, &other))
}

/// A resolver of the package of a row.
pub fn packages(row: Row<'_>) -> PkgResolver<JsonText> {
    let mut packages = PkgResolver::new(row.alloc, JsonText);
    row.done(packages.add_package(package(row)));
    packages
}

/// A resolver of the package and of the modules of a row.
pub fn standard(row: Row<'_>) -> StandardResolver<VirtualResolver<JsonText>, JsonText> {
    let mut standard = StandardResolver::new(row.alloc, row.modules("modules"), JsonText);
    row.done(standard.add_package(package(row)));
    standard
}

/// What a resolver of the packages `given` gives, to which the one `then` is added, or, where that is refused, what it
/// gives then.
pub fn added_or_left(row: Row<'_>) -> Value {
    let mut packages = PkgResolver::new(row.alloc, JsonText);
    for name in row.list("given") {
        row.done(packages.add_package(package_named(row, text_of(name))));
    }
    let is_refused = is_refused(packages.add_package(package_named(row, row.text("then"))));
    stands(row, is_refused, resolvers::sources(row, packages))
}

/// The same of a resolver that has local `modules` too.
pub fn added_beside_or_left(row: Row<'_>) -> Value {
    let mut standard = StandardResolver::new(row.alloc, row.modules("modules"), JsonText);
    for name in row.list("given") {
        row.done(standard.add_package(package_named(row, text_of(name))));
    }
    let is_refused = is_refused(standard.add_package(package_named(row, row.text("then"))));
    stands(row, is_refused, resolvers::sources(row, standard))
}
