//! The texts of numbers, once each that is wanted has one.
//!
//! No type here names one of those that give numbers: a library above that hands these out would carry what is stated of
//! them.
ghost use Rattle.std.specs.Prelude.{◌≡◌, ℕ, IfSome, IfNone, Some, None, map, slice_get, string_bytes};
ghost use Rattle.wesl_tree_interner.specs.Different.{AreDifferent};

use wesl_link_paths::PathTexts;
use wesl_link_symbols::ids::NameId;

/// The names of a link by their numbers.
#[derive(Drop)]
pub struct NameTexts {
    texts: Vec<String>,
    pub ghost different: { AreDifferent (map string_bytes texts.items) },
}

impl NameTexts {
    ghost use Rattle.wesl_link_tables.specs.TextsView.{names_told};

    /// These names, no two of which are equal.
    pub(crate) fn new(texts: Vec<String>) -> NameTexts
        requires different { AreDifferent (map string_bytes texts.items) }
        ensures { result.texts ≡ texts }
    {
        NameTexts { texts }
    }

    /// The name of a number, if it has one. It takes no memory.
    pub fn name(&self, id: NameId) -> Option<&str>
        ensures found { IfSome result (λ x. slice_get (names_told self.now) id.0 ≡ Some x.now) }
        ensures none { IfNone result (slice_get (names_told self.now) id.0 ≡ None) }
    {
        match self.texts.get(id.0) {
            Some(name) => Some(name.as_str()),
            None => None,
        }
    }

    /// The number that a name has, if it has one: each name is looked at once. It takes no memory.
    pub fn find(&self, name: &str) -> Option<NameId>
        ensures found { IfSome result (λ n. slice_get (names_told self.now) n.0 ≡ Some name.now) }
        ensures none { IfNone result ((i : ℕ) → slice_get (names_told self.now) i ≡ Some name.now → ⊥) }
    {
        for (place, text) in self.texts.iter().enumerate() {
            if text.as_str() == name {
                return Some(NameId(place));
            }
        }
        None
    }
}

/// What the numbers of a link stand for.
#[derive(Drop)]
pub struct NumberTexts {
    pub names: NameTexts,
    pub paths: PathTexts,
}
