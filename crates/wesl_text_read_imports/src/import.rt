//! Reading imports (WESL, "Imports").
ghost use Rattle.std.specs.Prelude.{◌≡◌, false};
ghost use Rattle.wesl_tree_syntax.specs.Tree.{import_node, list};
ghost use Rattle.wesl_tree_syntax.specs.View.{content_view, entry_view, import_view, item_view, listed, placed};
ghost use Rattle.wesl_text_form.specs.Productions.{a_bare_import, a_content, an_entry, an_import, commas, nothing, sym};
ghost use Rattle.wesl_text_tokens.specs.declared.symbol.Symbol.TheVariants as symbols;
ghost use Rattle.wesl_text_reading.specs.FirstTokens.{begins_sign};
ghost use Rattle.wesl_text_read.specs.Leads.{Reads, ahead};
ghost use Rattle.wesl_text_read.specs.Levels.{inner};
ghost use Rattle.wesl_text_read.specs.Parts.{ReadsRow};
ghost use Rattle.wesl_text_read_imports.specs.Closed.{closed_at};

use crate::list::next_item;
use crate::path::{optional_package_path, steps};
use wesl_text_read::{Expected, Reader};
use wesl_text_read_ahead::{begins_word, skip_word};
use wesl_text_tokens::Symbol;
use wesl_tree_syntax::{Import, ImportContent, ImportItem, ImportStatement, ImportStatementNode};

/// An import.
pub fn read_import(reader: &mut Reader<'_>) -> ImportStatementNode
    ensures { Reads (inner reader.old.levels an_import) (placed import_view import_node result) reader.old reader.new }
{
    let start = reader.place();
    let node = bare_import(reader);
    reader.placed(start, node)
}

// The same without its span.
fn bare_import(reader: &mut Reader<'_>) -> ImportStatement
    ensures { Reads (inner reader.old.levels a_bare_import) (import_view result) reader.old reader.new }
{
    let attributes = reader.attributes();
    skip_word(reader, "import");
    let path = optional_package_path(reader);
    let content = content(reader);
    reader.skip_sign(Symbol::Semicolon);
    ImportStatement {
        attributes,
        path,
        content,
    }
}

// What an import, or an entry of a collection, brings in.
#[cycle(contents)]
fn content(reader: &mut Reader<'_>) -> ImportContent
    ensures { Reads (inner reader.old.levels a_content) (content_view result) reader.old reader.new }
{
    if reader.begins_sign(Symbol::BraceLeft) {
        ImportContent::Collection(collection(reader))
    } else {
        ImportContent::Item(item(reader))
    }
}

// One item, perhaps with a new name.
fn item(reader: &mut Reader<'_>) -> ImportItem
    requires { begins_sign symbols.BraceLeft (ahead reader.old) ≡ false }
    ensures { Reads (inner reader.old.levels a_content) (item_view result) reader.old reader.new }
{
    let ident = reader.ident();
    if !begins_word(reader, "as") {
        return ImportItem {
            ident,
            rename: None,
        };
    }
    skip_word(reader, "as");
    ImportItem {
        ident,
        rename: Some(reader.ident()),
    }
}

// Entries in braces.
#[cycle(contents)]
fn collection(reader: &mut Reader<'_>) -> Vec<Import>
    ensures { ReadsRow (sym symbols.BraceLeft (commas list an_entry (sym symbols.BraceRight nothing)))
        (listed entry_view list result) reader.old reader.new }
{
    reader.skip_sign(Symbol::BraceLeft);
    entries(reader)
}

// Entries with commas between, and the brace that closes them.
#[cycle(contents)]
fn entries(reader: &mut Reader<'_>) -> Vec<Import>
    ensures { Reads (closed_at reader.old.levels list an_entry symbols.BraceRight)
        (listed entry_view list result) reader.old reader.new }
{
    let mut entries = Vec::new(reader.alloc);
    let mut room = reader.rest.len();
    let mut goes_on = !reader.begins_sign(Symbol::BraceRight);
    'entries: while goes_on && room > 0 {
        room -= 1;
        let entry = entry(reader);
        reader.put(&mut entries, entry);
        goes_on = next_item(reader, Symbol::BraceRight);
    }
    reader.wrong_if(goes_on, Expected::Symbol(Symbol::BraceRight));
    reader.skip_sign(Symbol::BraceRight);
    entries
}

// An entry of a collection.
#[cycle(contents)]
fn entry(reader: &mut Reader<'_>) -> Import
    ensures { Reads (inner reader.old.levels an_entry) (entry_view result) reader.old reader.new }
{
    if reader.levels == 0 {
        reader.wrong(Expected::FewerLevels);
        return no_entry(reader);
    }
    reader.levels -= 1;
    let path = steps(reader);
    let content = content(reader);
    reader.levels += 1;
    Import { path, content }
}

// An entry that takes no memory, in the place of one that is not read.
fn no_entry(reader: &Reader<'_>) -> Import {
    Import {
        path: Vec::new(reader.alloc),
        content: ImportContent::Collection(Vec::new(reader.alloc)),
    }
}
