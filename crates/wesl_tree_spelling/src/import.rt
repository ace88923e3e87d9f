//! Imports.
ghost use Rattle.std.specs.Prelude.{◌≡◌};
ghost use Rattle.wesl_tree_syntax.specs.Tree.{import_node, list};
ghost use Rattle.wesl_tree_syntax.specs.View.{item_view, content_view, entry_view, import_view, imports_tree, listed, placed};

use crate::tables::{Tables, same_texts};
use wesl_tree_syntax::{Import, ImportContent, ImportItem, ImportStatement, ImportStatementNode};

impl Tables<'_> {
    ghost use Rattle.wesl_tree_spelling.specs.Tables.{same_in};

    #[tactic(auto, using(crate::proofs::Bools::steps))]
    fn same_item(&self, left: &ImportItem, right: &ImportItem) -> bool
        ensures { result ≡ same_in self.now (item_view left.now) (item_view right.now) }
    {
        self.same_ident(left.ident, right.ident)
            && match (left.rename, right.rename) {
                (None, None) => true,
                (Some(left), Some(right)) => self.same_ident(left, right),
                _ => false,
            }
    }

    #[cycle(import)]
    #[tactic(auto, using(crate::proofs::Bools::steps))]
    fn same_content(&self, left: &ImportContent, right: &ImportContent) -> bool
        ensures { result ≡ same_in self.now (content_view left.now) (content_view right.now) }
    {
        match (left, right) {
            (ImportContent::Item(left), ImportContent::Item(right)) => self.same_item(left, right),
            (ImportContent::Collection(left), ImportContent::Collection(right)) =>
                self.same_entries(left, right),
            _ => false,
        }
    }

    #[cycle(import)]
    fn same_entry(&self, left: &Import, right: &Import) -> bool
        ensures { result ≡ same_in self.now (entry_view left.now) (entry_view right.now) }
    {
        same_texts(&left.path, &right.path) && self.same_content(&left.content, &right.content)
    }

    #[cycle(import)]
    fn same_entries(&self, left: &Vec<Import>, right: &Vec<Import>) -> bool
        ensures { result ≡ same_in self.now (listed entry_view list left.now) (listed entry_view list right.now) }
    {
        if left.len() != right.len() {
            return false;
        }
        for i in 0..left.len() {
            if !self.same_entry(&left[i], &right[i]) {
                return false;
            }
        }
        true
    }

    #[tactic(auto, using(crate::proofs::Bools::steps))]
    fn same_import(&self, left: &ImportStatement, right: &ImportStatement) -> bool
        ensures { result ≡ same_in self.now (import_view left.now) (import_view right.now) }
    {
        self.same_attributes(&left.attributes, &right.attributes)
            && self.same_path(&left.path, &right.path)
            && self.same_content(&left.content, &right.content)
    }

    #[tactic(auto, using(crate::proofs::Bools::steps))]
    fn same_import_node(&self, left: &ImportStatementNode, right: &ImportStatementNode) -> bool
        ensures { result ≡ same_in self.now (placed import_view import_node left.now) (placed import_view import_node right.now) }
    {
        self.same_span(left.span, right.span) && self.same_import(&left.node, &right.node)
    }

    pub(crate) fn same_imports(
        &self,
        left: &Vec<ImportStatementNode>,
        right: &Vec<ImportStatementNode>,
    ) -> bool
        ensures { result ≡ same_in self.now (imports_tree left.now) (imports_tree right.now) }
    {
        if left.len() != right.len() {
            return false;
        }
        for i in 0..left.len() {
            if !self.same_import_node(&left[i], &right[i]) {
                return false;
            }
        }
        true
    }
}
