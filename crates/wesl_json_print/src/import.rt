//! Printing imports.
ghost use Rattle.std.specs.Prelude.{codes};
ghost use Rattle.serde_json.specs.Data.{array, no_members};
ghost use Rattle.wesl_json_form.specs.Schema.{a_content, a_path, an_entry, an_import, leaf, node as node_form};
ghost use Rattle.wesl_json_print_nodes.specs.Printing.{Prints, PrintsList, PrintsMembers};
ghost use Rattle.wesl_json_print.specs.Members.{rename_member};
ghost use Rattle.wesl_json_words.specs.Values.{items_in, placed_at, value_in, with_option};
ghost use Rattle.wesl_tree_syntax.specs.Tree.{import_node, list};
ghost use Rattle.wesl_tree_syntax.specs.View.{content_view, entry_view, import_view, imports_tree, item_view, listed, optional, path_tree};

use wesl_json_print_nodes::{Printer, Sink, print_attributes, print_names};
use wesl_json_words::spelling;
use wesl_tree_names::{Ident, ModulePath, Names, Span};
use wesl_tree_syntax::{Import, ImportContent, ImportItem, ImportStatement, ImportStatementNode};

/// Prints the imports of a unit as the member `imports`, unless there are none.
pub fn print_imports<S: Sink>(
    out: &mut Printer<S>,
    spans: bool,
    names: &Names,
    imports: &Vec<ImportStatementNode>,
)
    ensures { PrintsList S.after out.old out.new (codes "imports") (items_in spans names.now an_import (imports_tree imports.now).children) }
{
    if !imports.is_empty() {
        out.key("imports");
        print_each(out, spans, names, imports);
    }
}

// Prints imports as a list.
fn print_each<S: Sink>(
    out: &mut Printer<S>,
    spans: bool,
    names: &Names,
    imports: &Vec<ImportStatementNode>,
)
    ensures { Prints S.after out.old out.new (array (items_in spans names.now an_import (imports_tree imports.now).children)) }
{
    out.begin_list();
    for import in imports {
        print_import(out, spans, names, &import.node, import.span);
    }
    out.close_list();
}

fn print_import<S: Sink>(
    out: &mut Printer<S>,
    spans: bool,
    names: &Names,
    import: &ImportStatement,
    span: Span,
)
    ensures { Prints S.after out.old out.new (placed_at spans names.now an_import import_node span (import_view import.now)) }
{
    out.begin();
    print_attributes(out, spans, names, "attrs", &import.attributes);
    out.key("content");
    print_content(out, spans, names, &import.content);
    print_optional_path(out, spans, names, &import.path);
    out.span(spans, span);
    out.close();
}

// Prints the path of an import, an option.
fn print_optional_path<S: Sink>(
    out: &mut Printer<S>,
    spans: bool,
    names: &Names,
    path: &Option<ModulePath>,
)
    ensures { PrintsMembers S.after out.old out.new (with_option (codes "path") spans names.now (leaf a_path) (optional path_tree path.now) no_members) }
{
    match path {
        Some(path) => {
            out.key("path");
            out.path(path);
        }
        None => {}
    }
}

#[cycle(printing)]
fn print_content<S: Sink>(out: &mut Printer<S>, spans: bool, names: &Names, content: &ImportContent)
    ensures { Prints S.after out.old out.new (value_in spans names.now (node_form a_content) (content_view content.now)) }
{
    match content {
        ImportContent::Item(item) => print_item(out, spans, names, item),
        ImportContent::Collection(entries) => {
            out.begin();
            out.key("list");
            print_entries(out, spans, names, entries);
            out.close();
        }
    }
}

fn print_item<S: Sink>(out: &mut Printer<S>, spans: bool, names: &Names, item: &ImportItem)
    ensures { Prints S.after out.old out.new (value_in spans names.now (node_form a_content) (item_view item.now)) }
{
    out.begin();
    print_rename(out, names, item.rename);
    out.text_at("item", spelling(names, item.ident));
    out.close();
}

// Prints the name that an item gets here, if that is another.
fn print_rename<S: Sink>(out: &mut Printer<S>, names: &Names, rename: Option<Ident>)
    ensures { PrintsMembers S.after out.old out.new (rename_member names.now rename) }
{
    match rename {
        Some(rename) => out.text_at("as", spelling(names, rename)),
        None => {}
    }
}

// Prints the entries of a collection as a list.
#[cycle(printing)]
fn print_entries<S: Sink>(out: &mut Printer<S>, spans: bool, names: &Names, entries: &Vec<Import>)
    ensures { Prints S.after out.old out.new (array (items_in spans names.now an_entry (listed entry_view list entries.now).children)) }
{
    out.begin_list();
    for entry in entries {
        print_entry(out, spans, names, entry);
    }
    out.close_list();
}

#[cycle(printing)]
fn print_entry<S: Sink>(out: &mut Printer<S>, spans: bool, names: &Names, entry: &Import)
    ensures { Prints S.after out.old out.new (value_in spans names.now (node_form an_entry) (entry_view entry.now)) }
{
    out.begin();
    out.key("content");
    print_content(out, spans, names, &entry.content);
    print_names(out, "path", &entry.path);
    out.close();
}
