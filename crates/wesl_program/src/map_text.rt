//! Printing a source map: what each name stands for.
ghost use Rattle.std.specs.Prelude.{◌≡◌, ◌++◌, IfOk, OnOk, map, string_bytes};
ghost use Rattle.json.specs.Tree.{json_tokens};
ghost use Rattle.serde_json.specs.Written.{outline};
ghost use Rattle.wesl_tree_names.specs.Path.{path_view};
ghost use Rattle.wesl_source_map.specs.BasicView.{items};
ghost use Rattle.wesl_source_map_entries.specs.Listed.{IsListing};
ghost use Rattle.wesl_program.specs.Answers.{PrintsMap, entries_tokens, entry_view};
ghost use Rattle.wesl_program.specs.Line.{item_value};

use crate::path_text::path_text;
use json::Writer;
use std::alloc::{AllocError, Global};
use wesl_source_map::BasicSourceMap;
use wesl_tree::ModulePath;

/// A name, the path of the module and the item of it that it stands for.
type Entry<'m> = (&'m str, &'m ModulePath, &'m str);

// Every name that is recorded, with what it stands for.
fn entries_of(alloc: Global, source_map: &BasicSourceMap) -> Result<Vec<Entry<'_>>, AllocError>
    ensures { IfOk result (λ es. IsListing (items source_map.now) (map entry_view es.items)) }
{
    source_map.decls(alloc).ok().ok_or(AllocError)
}

// Writes what a name stands for: the path of a module and an item of it.
fn write_item(
    alloc: Global,
    out: &mut Writer,
    path: &ModulePath,
    item: &str,
) -> Result<(), AllocError>
    ensures written { OnOk result (out.new.tokens ≡ out.old.tokens ++ json_tokens (outline (item_value (path_view path.now, item.now)))) }
    ensures before { out.new.before ≡ out.old.before }
{
    let path = path_text(alloc, path)?;
    out.begin_array()?;
    out.string(&path)?;
    out.string(item)?;
    out.end_array()
}

// Writes names with what they stand for as the members of an object, and its end.
fn write_entries(alloc: Global, out: &mut Writer, entries: &[Entry<'_>]) -> Result<(), AllocError>
    ensures written { OnOk result (out.new.tokens ≡ out.old.tokens ++ entries_tokens entries.now) }
    ensures before { out.new.before ≡ out.old.before }
{
    for entry in entries {
        out.key(entry.0)?;
        write_item(alloc, out, entry.1, entry.2)?;
    }
    out.end_object()
}

/// The text, and behind it the object of the names that are recorded, each with the path of its module and its item, as
/// compact JSON.
pub(crate) fn print_map(
    alloc: Global,
    text: String,
    source_map: &BasicSourceMap,
) -> Result<String, AllocError>
    ensures { IfOk result (λ s. PrintsMap source_map.now (string_bytes text) (string_bytes s)) }
{
    let entries = entries_of(alloc, source_map)?;
    let mut out = Writer::new(text.into_bytes());
    out.begin_object()?;
    write_entries(alloc, &mut out, &entries)?;
    match String::from_utf8(out.into_inner()) {
        Ok(printed) => Ok(printed),
        Err(_) => unreachable!(),
    }
}
