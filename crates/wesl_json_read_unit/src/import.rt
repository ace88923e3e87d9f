//! Reading imports (WESL, "Imports").
ghost use Rattle.std.specs.Prelude.{◌≡◌, codes, is_some, false};
ghost use Rattle.serde_json.specs.Find.{get};
ghost use Rattle.wesl_json_form.specs.View.{borrowed_view};
ghost use Rattle.wesl_tree_syntax.specs.Tree.{list};
ghost use Rattle.wesl_tree_syntax.specs.View.{content_view, entry_view, imports_tree, item_view, listed};
ghost use Rattle.wesl_json_form.specs.Schema.{a_content, an_entry, an_import, node as node_form};
ghost use Rattle.wesl_json_read.specs.Noted.{NotesForm, NotesMany, NotesNeeded};
ghost use Rattle.wesl_json_read_unit.specs.Worded.{NotesRename};
ghost use Rattle.wesl_json_read_unit.specs.UnitLists.{import_tree, some_entries, some_imports};

use wesl_json_form::BorrowedValue;
use wesl_json_read::Reader;
use wesl_tree_names::Ident;
use wesl_tree_syntax::{
    Import, ImportContent, ImportItem, ImportStatement, ImportStatementNode, Spanned,
};

/// The imports at `imports`, a list.
pub(crate) fn imports(reader: &mut Reader, value: &BorrowedValue<'_>) -> Vec<ImportStatementNode>
    ensures { NotesMany (codes "imports") some_imports (borrowed_view value.now) (imports_tree result) reader.old reader.new }
{
    let Some(items) = reader.list(value, "imports") else {
        return Vec::new(reader.alloc);
    };
    let mut imports = reader.room(items.len());
    for (index, item) in items.iter().enumerate() {
        if !reader.is_stopped() {
            let import = import(reader, item);
            reader.put(&mut imports, index, import);
        }
    }
    reader.within("imports");
    imports
}

fn import(reader: &mut Reader, value: &BorrowedValue<'_>) -> ImportStatementNode
    ensures { NotesForm (node_form an_import) (borrowed_view value.now) (import_tree result) reader.old reader.new }
{
    let span = reader.span(value);
    reader.keys(value, reader.spans, &["attrs", "path", "content"]);
    Spanned {
        node: ImportStatement {
            attributes: reader.attributes(value, "attrs"),
            path: reader.path(value),
            content: content_member(reader, value),
        },
        span,
    }
}

// What is imported, at `content`.
#[cycle(contents)]
fn content_member(reader: &mut Reader, value: &BorrowedValue<'_>) -> ImportContent
    ensures { NotesNeeded (codes "content") (node_form a_content) (borrowed_view value.now) (content_view result) reader.old reader.new }
{
    let Some(member) = reader.required(value, "content") else {
        return ImportContent::Collection(Vec::new(reader.alloc));
    };
    let content = content(reader, member);
    reader.within("content");
    content
}

// A collection where the object has a list, an item elsewhere.
#[cycle(contents)]
fn content(reader: &mut Reader, value: &BorrowedValue<'_>) -> ImportContent
    ensures { NotesForm (node_form a_content) (borrowed_view value.now) (content_view result) reader.old reader.new }
{
    if value.get("list").is_some() {
        reader.keys(value, false, &["list"]);
        ImportContent::Collection(entries(reader, value))
    } else {
        ImportContent::Item(item(reader, value))
    }
}

// The entries at `list`.
#[cycle(contents)]
fn entries(reader: &mut Reader, value: &BorrowedValue<'_>) -> Vec<Import>
    ensures { NotesMany (codes "list") some_entries (borrowed_view value.now) (listed entry_view list result) reader.old reader.new }
{
    let Some(items) = reader.list(value, "list") else {
        return Vec::new(reader.alloc);
    };
    let mut entries = reader.room(items.len());
    for (index, item) in items.iter().enumerate() {
        if !reader.is_stopped() {
            let entry = entry(reader, item);
            reader.put(&mut entries, index, entry);
        }
    }
    reader.within("list");
    entries
}

#[cycle(contents)]
fn entry(reader: &mut Reader, value: &BorrowedValue<'_>) -> Import
    ensures { NotesForm (node_form an_entry) (borrowed_view value.now) (entry_view result) reader.old reader.new }
{
    reader.keys(value, false, &["path", "content"]);
    Import {
        path: reader.names(value, "path"),
        content: content_member(reader, value),
    }
}

// One item, whose own name is bound here only where it has no other.
fn item(reader: &mut Reader, value: &BorrowedValue<'_>) -> ImportItem
    requires { is_some (get (codes "list") (borrowed_view value.now)) ≡ false }
    ensures { NotesForm (node_form a_content) (borrowed_view value.now) (item_view result) reader.old reader.new }
{
    reader.keys(value, false, &["item", "as"]);
    ImportItem {
        ident: reader.ident_at(value, "item"),
        rename: rename(reader, value),
    }
}

// The name at `as`, an option.
fn rename(reader: &mut Reader, value: &BorrowedValue<'_>) -> Option<Ident>
    ensures { NotesRename (borrowed_view value.now) result reader.old reader.new }
{
    match value.get("as") {
        Some(_) => Some(reader.ident_at(value, "as")),
        None => None,
    }
}
