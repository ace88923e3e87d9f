//! The mangler of the escape form (WESL, "NameMangling": the number of underscores stands before a name that has some).
ghost use Rattle.std.specs.Prelude.{◌≡◌, IfOk, IfErr, string_bytes, Some, None, true, false};
ghost use Rattle.wesl_tree_names.specs.Path.{path_view};
ghost use Rattle.wesl_tree_names.specs.declared.errors.Error as error;
ghost use Rattle.wesl_mangle_forms.specs.Items.{numbered};
ghost use Rattle.wesl_mangle_forms.specs.Identifier.{is_ascii_identifier, begins_with_two_underscores, has_identifiers};
ghost use Rattle.wesl_mangle_forms.specs.Escape.{escape, unescape, is_reversible};

use std::alloc::Global;
use wesl_mangle_forms::{Mangler, escape_form, number_item, read_escape};
use wesl_tree_names::{Error, ModulePath, Names};
use wesl_tree_syntax::TypeExpression;

/// Joins the names of a path and an item by `_`, with the number of its underscores before a name that
/// has some (WESL, "NameMangling"). It remembers nothing, and reads what it writes.
#[derive(Clone, Copy, Debug, Default)]
pub struct EscapeMangler;

impl EscapeMangler {
    /// Whether the escape form of `item` of the module at `path` is read back as this pair.
    ///
    /// It is where each name is not empty, begins with no ASCII digit, has no slash and is none of
    /// `package`, `self`, `super` and `import`; a package's name is such names with a slash between
    /// each two. It takes no memory.
    pub fn is_reversible(&self, path: &ModulePath, item: &str) -> bool
        ensures told { result ≡ is_reversible (path_view path.now) item.now }
        ensures read_back { result ≡ true → unescape (escape (path_view path.now) item.now) ≡ Some (path_view path.now, item.now) }
    {
        wesl_mangle_forms::is_reversible(path, item)
    }
}

impl Mangler for EscapeMangler {
    ghost name_of = { λ _ p i. escape p i };

    ghost recorded = { λ _ name. None };

    ghost writes = { λ _. false };

    ghost item_of = { λ _ name. unescape name };

    ghost variant_of = { λ _ names item number types. Some (numbered item number) };

    /// The escape form of `item` of the module at `path`. Refused for want of memory alone.
    ///
    /// Where `is_reversible` says yes, `unmangle` reads it back. Where all names are identifiers of ASCII
    /// letters, digits and underscores, so is the escape form, and no two underscores stand first in it.
    fn mangle(&mut self, alloc: Global, path: &ModulePath, item: &str) -> Result<String, Error>
        ensures named { IfOk result (λ name. string_bytes name ≡ escape (path_view path.now) item.now) }
        ensures identifier { IfOk result (λ name. has_identifiers (path_view path.now) item.now ≡ true
            → (is_ascii_identifier (string_bytes name) ≡ true) × (begins_with_two_underscores (string_bytes name) ≡ false)) }
        ensures read_back { IfOk result (λ name. is_reversible (path_view path.now) item.now ≡ true → unescape (string_bytes name) ≡ Some (path_view path.now, item.now)) }
        ensures refused { IfErr result (λ e. e ≡ error.Memory) }
    {
        escape_form(alloc, path, item)
    }

    fn unmangle(
        &self,
        alloc: Global,
        mangled: &str,
    ) -> Result<Option<(ModulePath, String)>, Error> {
        read_escape(alloc, mangled)
    }

    fn mangle_types(
        &self,
        alloc: Global,
        _: &Names,
        item: &str,
        variant: u32,
        _: &[TypeExpression],
    ) -> Result<String, Error> {
        number_item(alloc, item, u64::from(variant))
    }
}
