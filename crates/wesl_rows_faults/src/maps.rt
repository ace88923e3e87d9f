//! What the map of a link knows of sources.
use crate::shown::Shown;
use serde_json::Value;
use wesl::{
    BasicSourceMap, Diagnostic, EscapeMangler, FoundLink, LinkRequest, Mapped, SourceMap,
    SourceMapper, find_mapped, link_mapped,
};
use wesl_rows_base::{List, Object, Row, is_refused, text_of};

/// What a map says of a module: its source and the name by which it is shown, each null where it has none.
fn module_value(row: Row<'_>, map: &BasicSourceMap, text: &str) -> Value {
    let path = row.path_of(text);
    let mut known = List::new(row.alloc);
    known.put(row.found_text(map.get_source(&path)));
    known.put(row.found_text(map.get_display_name(&path)));
    known.end(row)
}

/// What a map says of the modules `asked`, and its default source.
fn known(row: Row<'_>, map: &BasicSourceMap) -> Value {
    let mut modules = List::new(row.alloc);
    for text in row.list("asked") {
        modules.put(module_value(row, map, text_of(text)));
    }
    let mut answer = Object::new(row.alloc);
    answer.put("default", row.found_text(map.get_default_source()));
    answer.put("modules", modules.end(row));
    answer.end(row)
}

/// A map of the modules `before` of a row, with the default source `default_before`, if the row has one.
fn recorded(row: Row<'_>) -> BasicSourceMap {
    let mut map = BasicSourceMap::new(row.alloc);
    for value in row.list("before") {
        let entry = row.of(value);
        let path = entry.path("path");
        row.refused_if(is_refused(map.add_source(path, None, entry.owned("source"))));
    }
    if row.has("default_before") {
        map.set_default_source(row.owned("default_before"));
    }
    map
}

/// What is made of a link that was found.
fn finished(
    row: Row<'_>,
    found: Result<FoundLink<EscapeMangler>, Diagnostic>,
) -> Result<Mapped, Diagnostic> {
    match found {
        Ok(found) => found.finish(row.alloc, true),
        Err(diagnostic) => Err(diagnostic),
    }
}

/// What the map of the link of the modules of a row, from the one at its `root`, says of sources in the end; the link is made
/// by one call or by two.
pub fn told(row: Row<'_>, is_by_two: bool) -> Value {
    let alloc = row.alloc;
    let keep = row.texts("keep");
    let root = row.rooted("root");
    let request = LinkRequest {
        root: &root,
        keep: keep.as_slice(),
        is_eager: row.has("eager"),
        max_modules: 1000,
    };
    let modules = Shown::new(row, row.modules("modules"));
    let mut mapper = SourceMapper::new(alloc, row.rooted("root"), modules, EscapeMangler);
    mapper.sourcemap = recorded(row);
    let outcome = if is_by_two {
        finished(row, find_mapped(alloc, &request, mapper, None))
    } else {
        link_mapped(alloc, &request, mapper, None, true)
    };
    match row.told(outcome) {
        Ok(mapped) => known(row, &mapped.map),
        Err(fault) => fault,
    }
}
