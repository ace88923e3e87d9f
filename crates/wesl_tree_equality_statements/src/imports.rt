//! Equality of imports.
ghost use Rattle.std.specs.Prelude.{◌≡◌, ◌↔◌, IsTrue};
ghost use Rattle.wesl_tree_syntax.specs.View.{item_view, content_view, entry_view, import_view};
ghost use Rattle.wesl_tree_equality.specs.Numbered.{numbered};

use wesl_tree_syntax::{Import, ImportContent, ImportItem, ImportStatement};

/// Whether two imported items are equal: they name the same and rename it alike.
#[tactic(auto, using(crate::proofs::OfImports::item_decided))]
pub fn equal_import_items(item: &ImportItem, other: &ImportItem) -> bool
    ensures { IsTrue result ↔ (numbered (item_view item.now) ≡ numbered (item_view other.now)) }
{
    item == other
}

/// Whether two contents of imports are equal: they bring in the same.
#[tactic(auto, using(crate::proofs::OfImports::contents_decided))]
pub fn equal_import_contents(content: &ImportContent, other: &ImportContent) -> bool
    ensures { IsTrue result ↔ (numbered (content_view content.now) ≡ numbered (content_view other.now)) }
{
    content == other
}

/// Whether two entries of collections are equal: they lead on by the same names and bring in the same.
#[tactic(auto, using(crate::proofs::OfImports::entries_decided))]
pub fn equal_imports(import: &Import, other: &Import) -> bool
    ensures { IsTrue result ↔ (numbered (entry_view import.now) ≡ numbered (entry_view other.now)) }
{
    import == other
}

/// Whether two import statements are equal: they say the same.
#[tactic(auto, using(crate::proofs::OfImports::import_decided))]
pub fn equal_import_statements(statement: &ImportStatement, other: &ImportStatement) -> bool
    ensures { IsTrue result ↔ (numbered (import_view statement.now) ≡ numbered (import_view other.now)) }
{
    statement == other
}
