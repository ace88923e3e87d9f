//! The calls by their names: what is not among the calls of one list is looked up in the next. A call of a few steps stands
//! in its place.
use crate::builtins::{size, space};
use crate::features::{answers_then, features, word};
use crate::{conditions, mappers, maps, paths, program};
use serde_json::Value;
use wesl::{
    BasicSourceMap, BuiltinIdent, BuiltinType, Builtins, Feature, Features, ModulePath,
    NoSourceMap, PathOrigin, flag_count,
};
use wesl_cond::equal_features;
use wesl_rows_base::Row;

/// What the call of a row answers. Here are those of the program, of the caller of the linker and of built-in names.
pub fn answered(row: Row<'_>) -> Value {
    let alloc = row.alloc;
    match row.text("call") {
        "wesl::run" => program::ran(row),
        "wesl::run on each beginning" => program::refused_beginnings(row),
        "wesl::line_of_bytes" => program::line_of_text(row),
        "wesl_example::told" => row.printed(wesl_example::told(alloc, row.text("text"))),
        "wesl_example::names_given" => {
            row.printed(wesl_example::names_given(alloc, row.text("text")))
        }
        "wesl_example::warnings" => {
            let names = row.owned_texts("names");
            let builtins = Builtins::new(names, Vec::new(alloc), Vec::new(alloc));
            row.printed(wesl_example::warnings(alloc, &row.tree(), &builtins))
        }
        "wesl_example::are_together" => {
            let (first, second) = (row.number("first", 0), row.number("second", 0));
            let together = wesl_example::are_together(alloc, &row.tree(), first, second);
            row.or(together, None).map_or(Value::Null, Value::Bool)
        }
        "wesl_example::condition_faults" => {
            let features = features(row, "features");
            row.printed(wesl_example::condition_faults(alloc, &row.tree(), &features))
        }
        "wesl_example::unit_faults" => {
            let names = row.owned_texts("names");
            let builtins = Builtins::new(names, Vec::new(alloc), Vec::new(alloc));
            row.printed(wesl_example::unit_faults(alloc, &row.tree(), &builtins))
        }
        "BuiltinType::Mat, builtin_ident" => {
            let matrix = BuiltinType::Mat(size(row, "columns"), size(row, "rows"));
            row.found_text(matrix.builtin_ident())
        }
        "AddressSpace::builtin_ident" => row.found_text(space(row).builtin_ident()),
        "Builtins::builtin_ident" => {
            let names = row.owned_texts("names");
            let builtins = Builtins::new(names, Vec::new(alloc), Vec::new(alloc));
            row.found_text(builtins.builtin_ident(row.text("name")))
        }
        call => of_conditions(row, call),
    }
}

/// Calls of conditions and of features.
fn of_conditions(row: Row<'_>, call: &str) -> Value {
    match call {
        "wesl_cond::run" => conditions::left(row),
        "wesl_cond::run in stages" => conditions::stages(row),
        "faults" => conditions::faults_told(row),
        "eval_attr" => conditions::formulas_left(row),
        "alive_together" => conditions::are_together(row),
        "flag_count" => {
            let count = flag_count(row.alloc, &row.tree());
            Value::from(row.or(count, 0))
        }
        "Feature::from" => {
            let is_on = row.part("flag").value.as_bool() == Some(true);
            row.text_value(word(Feature::from(is_on)))
        }
        "Feature::default" => row.text_value(word(Feature::default())),
        "Features::answer" => {
            let answer = features(row, "features").answer(row.text("name"));
            row.text_value(word(answer))
        }
        "Features::then" => answers_then(row),
        "Features::try_clone" => {
            let some = features(row, "features");
            let copy = row.or(some.try_clone(row.alloc), Features::new(row.alloc));
            Value::Bool(copy == features(row, "other"))
        }
        "equal_features" => {
            let (some, other) = (features(row, "features"), features(row, "other"));
            Value::Bool(equal_features(&some, &other))
        }
        _ => of_paths(row, call),
    }
}

/// Calls of paths and names.
fn of_paths(row: Row<'_>, call: &str) -> Value {
    let alloc = row.alloc;
    match call {
        "ModulePath::parse" => paths::parsed(row),
        "ModulePath::new_root" => Value::Bool(row.path("path") == ModulePath::new_root(alloc)),
        "ModulePath::new" => {
            let origin = PathOrigin::Relative(row.number("relative", 0));
            let made = ModulePath::new(origin, row.owned_texts("components"));
            Value::Bool(made == row.path("path"))
        }
        "ModulePath::join" => paths::joined(row),
        "ModulePath::join_path" => {
            let whole = row.path("from").join_path(alloc, &row.path("to"));
            row.path_value(&row.or(whole, ModulePath::new_root(alloc)))
        }
        "ModulePath::starts_with" => {
            Value::Bool(row.path("path").starts_with(&row.path("prefix")))
        }
        "ModulePath::is_relative" => Value::Bool(row.path("path").is_relative()),
        "ModulePath::cmp" => {
            row.text_value(paths::order(&row.path("first"), &row.path("second")))
        }
        "ModulePath::try_clone" => paths::copied(row),
        "Names::add" => paths::names_added(row),
        _ => of_maps(row, call),
    }
}

/// Calls of source maps and mappers: by their names, or by the type that is asked, which may be a map that may be absent,
/// an absent one, or the one that knows nothing.
fn of_maps(row: Row<'_>, call: &str) -> Value {
    match call {
        "SourceMapper::finish, or what stands" => mappers::finished_or_left(row),
        "BasicSourceMap::decls" => maps::listed(row, &maps::recorded(row)),
        "BasicSourceMap::try_clone" => maps::copied(row),
        "BasicSourceMap::add_decl, or what stands" | "BasicSourceMap::add_source, or what stands" =>
            maps::added_or_left(row),
        _ => match call.split_once("::") {
            Some(("SourceMapper", asked)) => mappers::answered(row, asked),
            Some(("BasicSourceMap", look)) => maps::found(row, look, &maps::recorded(row)),
            Some(("Some", look)) => maps::found(row, look, &Some(maps::recorded(row))),
            Some(("None", look)) => maps::found(row, look, &None::<BasicSourceMap>),
            Some(("NoSourceMap", look)) => maps::found(row, look, &NoSourceMap),
            _ => row.text_value("no such row"),
        },
    }
}
