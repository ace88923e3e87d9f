//! Mappers: the names that they give as manglers, the modules that they pass on as resolvers, and the record of both.
ghost use Rattle.std.specs.Prelude.{◌≡◌, false};

use crate::features::listed;
use crate::maps;
use serde_json::Value;
use wesl::condcomp::run;
use wesl::{
    BasicSourceMap, EscapeMangler, Feature, Features, Mangler, ModulePath, Names, NoMangler,
    NoResolver, Preprocessor, ResolveError, Resolver, SourceMap, SourceMapper, TranslationUnit,
};
use wesl_rows_base::{Row, is_refused, item_value, refused};

/// The name that a mangler gives to the item of a row.
fn named<M: Mangler>(row: Row<'_>, mangler: &mut M) -> Value {
    row.printed(mangler.mangle(row.alloc, &row.path("path"), row.text("item")))
}

/// What a mapper has recorded in the end.
fn finished<R: Drop, M: Drop>(row: Row<'_>, mapper: SourceMapper<R, M>) -> BasicSourceMap {
    match mapper.finish(row.alloc) {
        Ok(map) => map,
        Err(map) => {
            row.refused_if(true);
            map
        }
    }
}

/// What a mapper of a mangler's names answers to a call: a name, the item of one (null where it reads none), the name of
/// an item's third variant, without types, or the names that it has recorded after it gave them to the items `asked`.
fn mangled<M: Mangler + Drop>(row: Row<'_>, asked: &str, mangler: M) -> Value {
    let alloc = row.alloc;
    let root = ModulePath::new_root(alloc);
    let mut mapper = SourceMapper::new(alloc, root, NoResolver, mangler);
    match asked {
        "mangle" => named(row, &mut mapper),
        "unmangle" => match &row.or(mapper.unmangle(alloc, row.text("name")), None) {
            Some((path, item)) => item_value(row, path, item.as_str()),
            None => Value::Null,
        },
        "mangle_types" => {
            let names = Names::new(alloc);
            row.printed(mapper.mangle_types(alloc, &names, row.text("item"), 3, &[]))
        }
        "mangle, then finish and decls" => {
            for item in row.list("asked") {
                let _ = named(row.of(item), &mut mapper);
            }
            maps::listed(row, &finished(row, mapper))
        }
        _ => row.text_value("no such row"),
    }
}

/// What a resolver answers, or its refusal as an answer; want of memory is noted, so that the row has no line.
fn told<T: Drop>(row: Row<'_>, outcome: Result<T, ResolveError>) -> Result<T, Value> {
    match &outcome {
        Err(ResolveError::Memory) => row.refused_if(true),
        _ => {}
    }
    row.told(outcome)
}

/// What a mapper of a resolver's modules answers to a call: the unit or the source of the module at the path of a row, or
/// what is then looked up in its record, null where there is none.
fn passed_on<R: Resolver + Drop>(row: Row<'_>, call: &str, resolver: R) -> Value
    requires { R.ready resolver }
{
    let mut mapper = SourceMapper::new(row.alloc, row.rooted("root"), resolver, NoMangler);
    let (asked, then) = call.split_once(", then ").unwrap_or((call, ""));
    let answer = match asked {
        "resolve_module" => {
            match told(row, mapper.resolve_module(row.alloc, &row.rooted("path"))) {
                Ok(unit) => row.written(&unit),
                Err(fault) => fault,
            }
        }
        "resolve_source" => {
            match told(row, mapper.resolve_source(row.alloc, &row.rooted("path"))) {
                Ok(source) => Value::String(source),
                Err(fault) => fault,
            }
        }
        "new" => Value::Null,
        _ => row.text_value("no such row"),
    };
    match then {
        "get_source" => row.found_text(mapper.sourcemap.get_source(&row.path("source_of"))),
        "finish and get_default_source" => {
            row.found_text(finished(row, mapper).get_default_source())
        }
        _ => answer,
    }
}

/// What a mapper of the modules of a row, of which is left what the feature X, disabled, leaves, answers to a call.
fn resolved(row: Row<'_>, call: &str) -> Value {
    let alloc = row.alloc;
    let mut features = Features::new(alloc);
    listed(row, &mut features, "X", Feature::Disable);
    let left = Preprocessor::new(row.modules("modules"), move |given: TranslationUnit| {
        let mut unit = given;
        match run(alloc, &mut unit, &features) {
            Ok(()) => Ok(unit),
            Err(told) => Err(told.into_error()),
        }
    });
    passed_on(row, call, left)
}

/// What a mapper answers to a call: one of the names of the `mangler` of a row, or one that passes on its modules.
pub fn answered(row: Row<'_>, call: &str) -> Value {
    match row.text("mangler") {
        "EscapeMangler" => mangled(row, call, EscapeMangler),
        "NoMangler" => mangled(row, call, NoMangler),
        _ => resolved(row, call),
    }
}

/// What the map of a mapper, which was asked for the sources of the `modules` and for the name of an item of each, knows
/// when it is done, or, where that is refused, what it knows then.
pub fn finished_or_left(row: Row<'_>) -> Value {
    let alloc = row.alloc;
    let modules = row.modules("modules");
    let mut mapper = SourceMapper::new(alloc, row.rooted("root"), modules, EscapeMangler);
    for entry in row.list("modules") {
        let path = row.of(entry).rooted("path");
        row.refused_if(is_refused(mapper.resolve_source(alloc, &path)));
        row.refused_if(is_refused(mapper.mangle(alloc, &path, "item")));
    }
    match mapper.finish(alloc) {
        Ok(map) => maps::known(row, &map),
        Err(map) => refused(row, maps::known(row, &map)),
    }
}
