//! The escape form (WESL, "NameMangling": the number of underscores stands before a name that has some).
ghost use Rattle.std.specs.Prelude.{◌≡◌, ◌++◌, ◌∷◌, IfOk, IfErr, string_bytes, Some, true, false, count_by, ◌==◌, codes};
ghost use Rattle.std.specs.Fmt.{decimal};
ghost use Rattle.wesl_tree_names.specs.Path.{path_view, origin_view, relative};
ghost use Rattle.wesl_tree_names.specs.declared.errors.Error as error;
ghost use Rattle.wesl_mangle_forms.specs.Identifier.{is_ascii_identifier, begins_with_two_underscores, has_identifiers};
ghost use Rattle.wesl_tree_base.specs.Borrowed.{texts};
ghost use Rattle.wesl_mangle_forms.specs.Written.{AddsText, imported};
ghost use Rattle.wesl_mangle_forms.specs.Escape.{from_pieces, parts_of, escaped_part, escaped, escaped_origin, escape, unescape, is_reversible};

use crate::writer::Writer;
use std::alloc::{AllocError, Global};
use wesl_tree_names::{Error, ModulePath, PathOrigin};

/// Adds an underscore and the piece.
fn push_piece(text: &mut Writer, piece: &str)
    ensures { AddsText text.old text.new (95 ∷ piece.now) }
{
    text.push("_");
    text.push(piece);
}

/// How many underscores the text has.
fn underscores(text: &str) -> usize
    ensures { result ≡ count_by (λ c. c == 95) text.now }
{
    text.bytes().filter(|byte| *byte == b'_').count()
}

/// A name after its number.
fn told_part(alloc: Global, count: usize, part: &str) -> Result<String, AllocError>
    ensures { IfOk result (λ text. string_bytes text ≡ 95 ∷ (decimal count ++ part.now)) }
{
    format!(in alloc; "_{count}{part}")
}

/// `import` and the number.
fn import_count(alloc: Global, count: usize) -> Result<String, AllocError>
    ensures { IfOk result (λ text. string_bytes text ≡ codes "import_" ++ decimal count) }
{
    format!(in alloc; "import_{count}")
}

/// Adds a part of a name, after an underscore and the number of its underscores where it has some.
fn push_part(text: &mut Writer, part: &str)
    ensures { AddsText text.old text.new (from_pieces (escaped_part part.now)) }
{
    let count = underscores(part);
    if count == 0 {
        text.push(part);
    } else {
        text.add(told_part(text.alloc, count, part));
    }
}

/// Adds the parts of a package's name, after `import` and their number.
fn push_imported(text: &mut Writer, parts: &[&str])
    ensures { AddsText text.old text.new (from_pieces (imported (texts parts.now))) }
{
    text.add(import_count(text.alloc, parts.len()));
    for part in parts {
        text.push("_");
        push_part(text, part);
    }
}

/// The texts between the slashes.
fn parts_of(alloc: Global, name: &str) -> Result<Vec<&str>, AllocError>
    ensures { IfOk result (λ parts. texts parts.items ≡ parts_of name.now) }
{
    name.split('/').collect(alloc)
}

/// Adds a name that has these parts.
fn push_parts(text: &mut Writer, name: &str, parts: &[&str])
    requires { texts parts.now ≡ parts_of name.now }
    ensures { AddsText text.old text.new (from_pieces (escaped name.now)) }
{
    if parts.len() == 1 {
        push_part(text, name);
    } else {
        push_imported(text, parts);
    }
}

/// Adds a name that may have several parts.
fn push_escaped(text: &mut Writer, name: &str)
    ensures { AddsText text.old text.new (from_pieces (escaped name.now)) }
{
    match parts_of(text.alloc, name) {
        Ok(parts) => push_parts(text, name, parts.as_slice()),
        Err(_) => text.refuse(),
    }
}

/// Adds `self`, or `super` so many times.
fn push_relative(text: &mut Writer, up: usize)
    ensures { AddsText text.old text.new (from_pieces (escaped_origin (relative up))) }
{
    if up == 0 {
        text.push("self");
        return;
    }
    text.push("super");
    for _done in 1..up {
        push_piece(text, "super");
    }
}

/// Adds what the origin is written as.
fn push_origin(text: &mut Writer, origin: &PathOrigin)
    ensures { AddsText text.old text.new (from_pieces (escaped_origin (origin_view origin.now))) }
{
    match origin {
        PathOrigin::Absolute => text.push("package"),
        PathOrigin::Relative(up) => push_relative(text, *up),
        PathOrigin::Package(name) => push_escaped(text, name.as_str()),
    }
}

/// The escape form of `item` of the module at `path`. Refused for want of memory alone.
///
/// Where `is_reversible` says yes, `read_escape` reads it back. Where all names are identifiers of ASCII
/// letters, digits and underscores, so is the escape form, and no two underscores stand first in it.
pub fn escape_form(alloc: Global, path: &ModulePath, item: &str) -> Result<String, Error>
    ensures named { IfOk result (λ name. string_bytes name ≡ escape (path_view path.now) item.now) }
    ensures identifier { IfOk result (λ name. has_identifiers (path_view path.now) item.now ≡ true
        → (is_ascii_identifier (string_bytes name) ≡ true) × (begins_with_two_underscores (string_bytes name) ≡ false)) }
    ensures read_back { IfOk result (λ name. is_reversible (path_view path.now) item.now ≡ true → unescape (string_bytes name) ≡ Some (path_view path.now, item.now)) }
    ensures refused { IfErr result (λ e. e ≡ error.Memory) }
{
    let mut text = Writer::new(alloc);
    push_origin(&mut text, &path.origin);
    for component in &path.components {
        text.push("_");
        push_escaped(&mut text, component.as_str());
    }
    text.push("_");
    push_escaped(&mut text, item);
    text.end()
}
