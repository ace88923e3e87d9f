//! The Unicode form.
ghost use Rattle.std.specs.Prelude.{◌≡◌, ◌++◌, IfOk, IfErr, string_bytes, Some, true, false, length, map};
ghost use Rattle.std.specs.List.{list_all};
ghost use Rattle.wesl_tree_names.specs.Path.{path_view, origin_view, relative};
ghost use Rattle.wesl_tree_names.specs.declared.errors.Error as error;
ghost use Rattle.wesl_tree_syntax.specs.Tree.{tree_below};
ghost use Rattle.wesl_tree_syntax.specs.View.{type_view};
ghost use Rattle.wesl_mangle_forms.specs.Items.{IsRefusedVariant};
ghost use Rattle.wesl_mangle_forms.specs.TypeText.{is_normal_type, unicode_variant};
ghost use Rattle.wesl_mangle_forms.specs.Written.{AddsText};
ghost use Rattle.wesl_mangle_forms.specs.Unicode.{separator, from_words, origin_words, unicode, from_unicode, has_own_words};

use crate::types::{is_normal_type, push_types};
use crate::writer::Writer;
use std::alloc::Global;
use wesl_tree_names::{Error, ModulePath, Names, PathOrigin};
use wesl_tree_syntax::TypeExpression;

/// Stands between two words: U+02D0, which looks like a colon, twice.
pub const SEPARATOR: &str = "\u{2d0}\u{2d0}";

/// Adds a separator and the word.
fn push_word(text: &mut Writer, word: &str)
    ensures { AddsText text.old text.new (separator ++ word.now) }
{
    text.push(SEPARATOR);
    text.push(word);
}

/// Adds `self`, or `super` so many times.
fn push_relative(text: &mut Writer, up: usize)
    ensures { AddsText text.old text.new (from_words (origin_words (relative up))) }
{
    if up == 0 {
        text.push("self");
        return;
    }
    text.push("super");
    for _done in 1..up {
        push_word(text, "super");
    }
}

/// Adds what the origin is written as.
fn push_origin(text: &mut Writer, origin: &PathOrigin)
    ensures { AddsText text.old text.new (from_words (origin_words (origin_view origin.now))) }
{
    match origin {
        PathOrigin::Absolute => text.push("package"),
        PathOrigin::Relative(up) => push_relative(text, *up),
        PathOrigin::Package(name) => text.push(name.as_str()),
    }
}

/// Whether each of the types can be written.
fn are_normal_types(types: &[TypeExpression]) -> bool
    ensures { result ≡ list_all is_normal_type (map type_view types.now) }
{
    for ty in types {
        if !is_normal_type(ty) {
            return false;
        }
    }
    true
}

/// The Unicode form of `item` of the module at `path`. Refused for want of memory alone.
///
/// Where no name is empty, has a U+02D0 or is `package`, `self` or `super`, `read_unicode` reads it back.
pub fn unicode_form(alloc: Global, path: &ModulePath, item: &str) -> Result<String, Error>
    ensures named { IfOk result (λ name. string_bytes name ≡ unicode (path_view path.now) item.now) }
    ensures read_back { IfOk result (λ name. has_own_words (path_view path.now) item.now ≡ true → from_unicode (string_bytes name) ≡ Some (path_view path.now, item.now)) }
    ensures refused { IfErr result (λ e. e ≡ error.Memory) }
{
    let mut text = Writer::new(alloc);
    push_origin(&mut text, &path.origin);
    for component in &path.components {
        push_word(&mut text, component.as_str());
    }
    push_word(&mut text, item);
    text.end()
}

/// The item with the types in brackets, as the Unicode form writes a variant. `names` is the table of the
/// types' identifiers.
///
/// Refused for want of memory, and as `NotNormalType` where an argument of a type is neither a literal nor a
/// type.
pub fn unicode_variant(
    alloc: Global,
    names: &Names,
    item: &str,
    types: &[TypeExpression],
) -> Result<String, Error>
    requires { list_all (tree_below (length names.now)) (map type_view types.now) ≡ true }
    ensures named { IfOk result (λ name. unicode_variant names.now item.now (map type_view types.now) ≡ Some (string_bytes name)) }
    ensures refused { IfErr result (IsRefusedVariant (unicode_variant names.now item.now (map type_view types.now))) }
{
    if !are_normal_types(types) {
        return Err(Error::NotNormalType);
    }
    let mut text = Writer::new(alloc);
    text.push(item);
    push_types(&mut text, names, types);
    text.end()
}
