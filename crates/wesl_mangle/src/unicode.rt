//! The mangler of the Unicode form.
ghost use Rattle.std.specs.Prelude.{◌≡◌, IfOk, IfErr, string_bytes, Some, None, true, false};
ghost use Rattle.wesl_tree_names.specs.Path.{path_view};
ghost use Rattle.wesl_tree_names.specs.declared.errors.Error as error;
ghost use Rattle.wesl_mangle_forms.specs.TypeText.{unicode_variant};
ghost use Rattle.wesl_mangle_forms.specs.Unicode.{unicode, from_unicode, has_own_words};

use std::alloc::Global;
use wesl_mangle_forms::{Mangler, read_unicode, unicode_form, unicode_variant};
use wesl_tree_names::{Error, ModulePath, Names};
use wesl_tree_syntax::TypeExpression;

/// Joins the names of a path and an item by marks that look like colons, and writes types in brackets
/// that look like angle brackets. It remembers nothing, and reads the names that it writes.
#[derive(Clone, Copy, Debug, Default)]
pub struct UnicodeMangler;

impl Mangler for UnicodeMangler {
    ghost name_of = { λ _ p i. unicode p i };

    ghost recorded = { λ _ name. None };

    ghost writes = { λ _. false };

    ghost item_of = { λ _ name. from_unicode name };

    ghost variant_of = { λ _ names item number types. unicode_variant names item types };

    /// The Unicode form of `item` of the module at `path`. Refused for want of memory alone.
    ///
    /// Where no name is empty, has a U+02D0 or is `package`, `self` or `super`, `unmangle` reads it back.
    fn mangle(&mut self, alloc: Global, path: &ModulePath, item: &str) -> Result<String, Error>
        ensures named { IfOk result (λ name. string_bytes name ≡ unicode (path_view path.now) item.now) }
        ensures read_back { IfOk result (λ name. has_own_words (path_view path.now) item.now ≡ true → from_unicode (string_bytes name) ≡ Some (path_view path.now, item.now)) }
        ensures refused { IfErr result (λ e. e ≡ error.Memory) }
    {
        unicode_form(alloc, path, item)
    }

    fn unmangle(
        &self,
        alloc: Global,
        mangled: &str,
    ) -> Result<Option<(ModulePath, String)>, Error> {
        read_unicode(alloc, mangled)
    }

    fn mangle_types(
        &self,
        alloc: Global,
        names: &Names,
        item: &str,
        _: u32,
        types: &[TypeExpression],
    ) -> Result<String, Error> {
        unicode_variant(alloc, names, item, types)
    }
}
