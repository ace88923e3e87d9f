//! Source maps: what is recorded, what is looked up, and what a map knows after a record that was refused.
use serde_json::Value;
use wesl::{BasicSourceMap, SourceMap};
use wesl_rows_base::{List, Object, Row, found_value, is_refused, stands, text_of};

/// Records an entry: a module's source, with the name by which it is shown, where it has one, else the item of a name.
/// Answers whether that was refused, as it is for want of memory.
fn is_lost(entry: Row<'_>, map: &mut BasicSourceMap) -> bool {
    let path = entry.path("path");
    if entry.has("source") {
        let display = match entry.value.get("display") {
            Some(Value::String(name)) => Some(entry.copy_of(name.as_str())),
            _ => None,
        };
        is_refused(map.add_source(path, display, entry.owned("source")))
    } else {
        is_refused(map.add_decl(entry.owned("name"), path, entry.owned("item")))
    }
}

/// Records the entries that are listed at a key.
fn entries_recorded(row: Row<'_>, key: &str, map: &mut BasicSourceMap) {
    for entry in row.list(key) {
        row.refused_if(is_lost(row.of(entry), map));
    }
}

/// A source map in which the items, the sources and the default sources of a row were recorded, in that order.
pub fn recorded(row: Row<'_>) -> BasicSourceMap {
    let mut map = BasicSourceMap::new(row.alloc);
    entries_recorded(row, "given", &mut map);
    entries_recorded(row, "sources", &mut map);
    for text in row.list("defaults") {
        map.set_default_source(row.copy_of(text_of(text)));
    }
    map
}

/// Every name of a map with the path and the item that it stands for.
pub fn listed(row: Row<'_>, map: &BasicSourceMap) -> Value {
    let mut names = List::new(row.alloc);
    match map.decls(row.alloc).ok() {
        Some(decls) => {
            for (name, path, item) in decls.as_slice() {
                let mut entry = List::new(row.alloc);
                entry.text(name);
                entry.put(row.path_value(path));
                entry.text(item);
                names.put(entry.end(row));
            }
        }
        None => row.refused_if(true),
    }
    names.end(row)
}

/// What a look-up of a row finds in a map.
pub fn found<M: SourceMap>(row: Row<'_>, look: &str, map: &M) -> Value {
    match look {
        "get_decl" => found_value(row, map.get_decl(row.text("name"))),
        "get_source" => row.found_text(map.get_source(&row.path("path"))),
        "get_display_name" => row.found_text(map.get_display_name(&row.path("path"))),
        "get_default_source" => row.found_text(map.get_default_source()),
        _ => row.text_value("no such row"),
    }
}

/// What a copy of the map of a row knows: all its names, the sources of the modules `paths`, and the default source.
pub fn copied(row: Row<'_>) -> Value {
    let map = recorded(row);
    let copy = row.or(map.try_clone(row.alloc), BasicSourceMap::new(row.alloc));
    let mut sources = List::new(row.alloc);
    for entry in row.list("paths") {
        let path = row.of(entry).path("path");
        sources.put(row.found_text(copy.get_source(&path)));
    }
    let mut answer = Object::new(row.alloc);
    answer.put("decls", listed(row, &copy));
    answer.put("default", row.found_text(copy.get_default_source()));
    answer.put("sources", sources.end(row));
    answer.end(row)
}

/// What a map knows: every name, what it says of the module `asked`, and its default source.
pub fn known(row: Row<'_>, map: &BasicSourceMap) -> Value {
    let asked = row.path("asked");
    let mut answer = Object::new(row.alloc);
    answer.put("names", listed(row, map));
    answer.put("source", row.found_text(map.get_source(&asked)));
    answer.put("shown", row.found_text(map.get_display_name(&asked)));
    answer.put("default", row.found_text(map.get_default_source()));
    answer.end(row)
}

/// What the map of a row knows when it records the entry `then` too, or, where that is refused, what it knows then.
pub fn added_or_left(row: Row<'_>) -> Value {
    let mut map = recorded(row);
    let is_lost = is_lost(row.part("then"), &mut map);
    stands(row, is_lost, known(row, &map))
}
