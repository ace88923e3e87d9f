//! What the refusals of links and of resolvers tell beside their errors: the module, the name by which it is shown, its source
//! and a place in it.
use crate::resolvers::{passed, refused};
use crate::shown::Shown;
use serde_json::Value;
use wesl_cond::Features;
use wesl_json::JsonText;
use wesl_link::{LinkRequest, link_under, resolve_eager, resolve_lazy};
use wesl_resolve::{PkgResolver, Preprocessor, StandardResolver, VirtualResolver};
use wesl_resolve_base::{CodegenModule, CodegenPkg, Resolver};
use wesl_rows_base::{List, Row, located};
use wesl_tree_names::{Diagnostic, Error, ImportError, ResolveError};

/// The diagnostic that an error holds, if it holds one.
fn held(error: &Error) -> Option<&Diagnostic> {
    match error {
        Error::Import(ImportError::ResolveError(ResolveError::Error(inner))) => Some(&**inner),
        Error::Resolve(ResolveError::Error(inner)) => Some(&**inner),
        _ => None,
    }
}

/// What a diagnostic tells, and, from outside inwards, what those tell that it holds.
fn levels(row: Row<'_>, diagnostic: &Diagnostic) -> Value {
    let mut levels = List::new(row.alloc);
    levels.put(located(row, diagnostic));
    if let Some(inner) = held(&diagnostic.error) {
        levels.put(located(row, inner));
        if let Some(innermost) = held(&inner.error) {
            levels.put(located(row, innermost));
        }
    }
    levels.end(row)
}

/// What the refusal of a link tells. Want of memory is noted.
fn told<T: Drop>(row: Row<'_>, found: Result<T, Diagnostic>) -> Value {
    match found {
        Ok(_) => row.text_value("linked"),
        Err(diagnostic) => {
            row.refused_if(matches!(diagnostic.error, Error::Memory));
            let told = levels(row, &diagnostic);
            drop(diagnostic);
            told
        }
    }
}

/// The package of a row, a root alone.
fn package(row: Row<'_>) -> CodegenPkg {
    CodegenPkg {
        crate_name: row.copy_of("crate"),
        root: CodegenModule {
            name: row.owned("package"),
            source: row.owned("package_source"),
            submodules: Vec::new(row.alloc),
        },
        dependencies: Vec::new(row.alloc),
    }
}

/// A resolver of the modules of a row, which shows their names.
fn modules(row: Row<'_>) -> Shown<VirtualResolver<JsonText>> {
    Shown::new(row, row.modules("modules"))
}

/// The package of a row beside such a resolver.
fn standard(row: Row<'_>) -> StandardResolver<Shown<VirtualResolver<JsonText>>, JsonText> {
    let mut standard = StandardResolver::new(row.alloc, modules(row), JsonText);
    row.done(standard.add_package(package(row)));
    standard
}

/// The package of a row alone.
fn packages(row: Row<'_>) -> PkgResolver<JsonText> {
    let mut packages = PkgResolver::new(row.alloc, JsonText);
    row.done(packages.add_package(package(row)));
    packages
}

/// What is told of the module at the `path` of a row, or, where it has a `unit`, of a link of this unit from there.
fn told_by<R: Resolver + Drop>(row: Row<'_>, resolver: R) -> Value
    requires { R.ready resolver }
{
    let mut resolver = resolver;
    let path = row.rooted("path");
    if row.has("eager") {
        told(
            row,
            resolve_eager(row.alloc, row.unit("unit"), &path, &mut resolver, 1000),
        )
    } else if row.has("unit") {
        let keep = row.texts("keep");
        let root = row.unit("unit");
        told(
            row,
            resolve_lazy(row.alloc, keep.as_slice(), root, &path, &mut resolver, 1000),
        )
    } else {
        match row.told(resolver.resolve_module(row.alloc, &path)) {
            Ok(unit) => row.tree_of(&unit),
            Err(fault) => fault,
        }
    }
}

/// The same by the modules and the package of a row, in one way of several.
pub fn told_in_a_way(row: Row<'_>) -> Value {
    match row.text("by") {
        "packages" => told_by(row, packages(row)),
        "packages beside modules" => told_by(row, standard(row)),
        "a preprocessor that refuses" => told_by(row, Preprocessor::new(standard(row), refused)),
        "a preprocessor that passes" => told_by(row, Preprocessor::new(standard(row), passed)),
        _ => told_by(row, modules(row)),
    }
}

/// What is told of a link under features, by which flags are disabled, of the module at the `path` of a row.
pub fn told_under_features(row: Row<'_>) -> Value {
    let keep = row.texts("keep");
    let path = row.rooted("path");
    let request = LinkRequest {
        root: &path,
        keep: keep.as_slice(),
        is_eager: false,
        max_modules: 1000,
    };
    let features = Features::new(row.alloc);
    told(
        row,
        link_under(row.alloc, &request, modules(row), Some(&features)),
    )
}
