//! Printing imports and directives (WESL, "Imports"; WGSL, "Directives").
ghost use Rattle.std.specs.Prelude.{[], map, true, ◌≡◌, ◌∷◌};
ghost use Rattle.wesl_text_form.specs.Productions.{a_bare_directive, a_bare_import, a_content, a_path, an_entry, some_words};
ghost use Rattle.wesl_text_form.specs.Spelling.{leaf_slots};
ghost use Rattle.wesl_text_print.specs.Printing.{Prints, comma_slots, slots_in};
ghost use Rattle.wesl_text_print_statements.specs.Parts.{option_in};
ghost use Rattle.wesl_text_print_unit.specs.Units.{import_beginning_slots, import_path_row, listing_slots, renamed_row};
ghost use Rattle.wesl_tree_names.specs.Path.{from_package, origin_view, path_view};
ghost use Rattle.wesl_tree_syntax.specs.Tree.{binder, end, path as path_label, texts as texts_label};
ghost use Rattle.wesl_tree_syntax.specs.View.{content_view, directive_view, entry_view, ident_tree, import_view, item_view, path_tree, texts_of};

use wesl_text_print::{
    TokenSink, Unwritable, end_commas, print_comma, print_name, print_relative, print_step,
    print_steps,
};
use wesl_text_print_statements::{print_attributes, print_diagnostic, print_words};
use wesl_text_tokens::Symbol;
use wesl_tree_names::{Ident, ModulePath, Names, PathOrigin};
use wesl_tree_syntax::{
    Attributes, GlobalDirective, Import, ImportContent, ImportItem, ImportStatement,
};

/// Prints an import statement; the names of its identifiers are those of the table.
///
/// Where no text says it, the sink is told why.
pub fn print_import<S: TokenSink>(out: &mut S, names: &Names, import: &ImportStatement)
    ensures { Prints S.after out.old out.new (slots_in names.now a_bare_import (import_view import.now)) }
{
    print_attributes(out, names, &import.attributes);
    out.keyword("import");
    out.space();
    print_optional_path(out, &import.path);
    print_content(out, names, &import.content);
    out.symbol(Symbol::Semicolon);
}

// Prints the path of an import, an option.
fn print_optional_path<S: TokenSink>(out: &mut S, path: &Option<ModulePath>)
    ensures { Prints S.after out.old out.new (option_in [] import_path_row path_tree path.now) }
{
    match path {
        Some(path) => print_import_path(out, path),
        None => {}
    }
}

// Prints the path of an import, with `::` behind each of its names.
fn print_import_path<S: TokenSink>(out: &mut S, path: &ModulePath)
    ensures { Prints S.after out.old out.new (leaf_slots (a_path true) (path_label (path_view path.now)) end) }
{
    print_import_origin(out, &path.origin);
    print_steps(out, &path.components);
}

// Prints where the path of an import begins.
fn print_import_origin<S: TokenSink>(out: &mut S, origin: &PathOrigin)
    ensures { Prints S.after out.old out.new (import_beginning_slots (origin_view origin.now)) }
{
    match origin {
        PathOrigin::Absolute => print_step(out, "package"),
        PathOrigin::Relative(up) => print_relative(out, *up),
        PathOrigin::Package(name) => print_import_package(out, name.as_str()),
    }
}

// Prints the name of a package with `::` behind it; slashes may stand in it.
fn print_import_package<S: TokenSink>(out: &mut S, name: &str)
    ensures { Prints S.after out.old out.new (import_beginning_slots (from_package name.now)) }
{
    out.package(name);
    out.symbol(Symbol::ColonColon);
}

// Prints what an import brings in.
#[cycle(imports)]
fn print_content<S: TokenSink>(out: &mut S, names: &Names, content: &ImportContent)
    ensures { Prints S.after out.old out.new (slots_in names.now a_content (content_view content.now)) }
{
    match content {
        ImportContent::Item(item) => print_item(out, names, item),
        ImportContent::Collection(entries) => {
            out.symbol(Symbol::BraceLeft);
            print_entries(out, names, entries);
            out.symbol(Symbol::BraceRight);
        }
    }
}

// Prints the entries of a collection with commas between them.
#[cycle(imports)]
fn print_entries<S: TokenSink>(out: &mut S, names: &Names, entries: &Vec<Import>)
    ensures { Prints S.after out.old out.new (comma_slots names.now an_entry (map entry_view entries.now.items)) }
{
    let mut is_first = true;
    for entry in entries {
        print_comma(out, is_first);
        is_first = false;
        print_entry(out, names, entry);
    }
    end_commas(out, is_first);
}

// Prints an entry of a collection.
#[cycle(imports)]
fn print_entry<S: TokenSink>(out: &mut S, names: &Names, entry: &Import)
    ensures { Prints S.after out.old out.new (slots_in names.now an_entry (entry_view entry.now)) }
{
    print_steps(out, &entry.path);
    print_content(out, names, &entry.content);
}

// Prints an item, and its new name, an option.
fn print_item<S: TokenSink>(out: &mut S, names: &Names, item: &ImportItem)
    ensures { Prints S.after out.old out.new (slots_in names.now a_content (item_view item.now)) }
{
    print_name(out, names, item.ident);
    print_new_name(out, names, item.rename);
}

// Prints the new name of an item, an option.
fn print_new_name<S: TokenSink>(out: &mut S, names: &Names, rename: Option<Ident>)
    ensures { Prints S.after out.old out.new (option_in names.now renamed_row (ident_tree binder) rename) }
{
    match rename {
        Some(rename) => {
            out.space();
            out.keyword("as");
            out.space();
            print_name(out, names, rename);
        }
        None => {}
    }
}

/// Prints a directive. Where no text says it, the sink is told why.
pub fn print_directive<S: TokenSink>(out: &mut S, names: &Names, directive: &GlobalDirective)
    ensures { Prints S.after out.old out.new (slots_in names.now a_bare_directive (directive_view directive.now)) }
{
    match directive {
        GlobalDirective::Diagnostic {
            attributes,
            severity,
            rule,
        } => {
            print_attributes(out, names, attributes);
            out.keyword("diagnostic");
            print_diagnostic(out, severity.as_str(), rule.as_str());
            out.symbol(Symbol::Semicolon);
        }
        GlobalDirective::Enable {
            attributes,
            names: words,
        } => print_listing(out, names, "enable", attributes, words),
        GlobalDirective::Requires {
            attributes,
            names: words,
        } => print_listing(out, names, "requires", attributes, words),
    }
}

// Prints a directive of a keyword and words.
fn print_listing<S: TokenSink>(
    out: &mut S,
    names: &Names,
    word: &str,
    attributes: &Attributes,
    words: &Vec<String>,
)
    ensures { Prints S.after out.old out.new (listing_slots names.now word.now attributes.now words.now) }
{
    print_attributes(out, names, attributes);
    out.keyword(word);
    out.space();
    print_some_words(out, words);
    out.symbol(Symbol::Semicolon);
}

// Prints words with commas between them: at least one.
fn print_some_words<S: TokenSink>(out: &mut S, words: &Vec<String>)
    ensures { Prints S.after out.old out.new (leaf_slots some_words (texts_label (texts_of words.now)) end) }
{
    if words.is_empty() {
        out.refuse(Unwritable::NoWords);
    } else {
        print_words(out, words);
    }
}
