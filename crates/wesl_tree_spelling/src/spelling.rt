//! The comparison of the parts of two modules, by their spelling or by the places of their nodes. No memory is taken.
ghost use Rattle.std.specs.Prelude.{◌≡◌, ◌↔◌, IsTrue};
ghost use Rattle.wesl_tree_spelling.specs.Tables.{shown_in};
ghost use Rattle.wesl_tree_syntax.specs.Tree.{respell};
ghost use Rattle.wesl_tree_syntax.specs.Unit.{name_in};
ghost use Rattle.wesl_tree_syntax.specs.View.{imports_tree, directives_tree, declarations_tree};

use crate::tables::Tables;
use wesl_tree_names::Names;
use wesl_tree_syntax::{GlobalDeclarationNode, GlobalDirectiveNode, ImportStatementNode};

impl Tables<'_> {
    /// Whether two lists of imports show the same by these tables.
    pub fn imports_agree(
        &self,
        left: &Vec<ImportStatementNode>,
        right: &Vec<ImportStatementNode>,
    ) -> bool
        ensures { let t = self.now in IsTrue result ↔ (shown_in t.places t.left.now (imports_tree left.now) ≡ shown_in t.places t.right.now (imports_tree right.now)) }
    {
        self.same_imports(left, right)
    }

    /// Whether two lists of directives show the same by these tables.
    pub fn directives_agree(
        &self,
        left: &Vec<GlobalDirectiveNode>,
        right: &Vec<GlobalDirectiveNode>,
    ) -> bool
        ensures { let t = self.now in IsTrue result ↔ (shown_in t.places t.left.now (directives_tree left.now) ≡ shown_in t.places t.right.now (directives_tree right.now)) }
    {
        self.same_directives(left, right)
    }

    /// Whether two lists of declarations show the same by these tables.
    pub fn declarations_agree(
        &self,
        left: &Vec<GlobalDeclarationNode>,
        right: &Vec<GlobalDeclarationNode>,
    ) -> bool
        ensures { let t = self.now in IsTrue result ↔ (shown_in t.places t.left.now (declarations_tree left.now) ≡ shown_in t.places t.right.now (declarations_tree right.now)) }
    {
        self.same_declarations(left, right)
    }
}

/// Whether two lists of imports are the same once each identifier is replaced by its name in its table. Spans do not
/// count.
pub fn same_imports(
    left_names: &Names,
    left: &Vec<ImportStatementNode>,
    right_names: &Names,
    right: &Vec<ImportStatementNode>,
) -> bool
    ensures { IsTrue result ↔ (respell (name_in left_names.now) (imports_tree left.now) ≡ respell (name_in right_names.now) (imports_tree right.now)) }
{
    let tables = Tables {
        left: left_names,
        right: right_names,
        places: false,
    };
    tables.same_imports(left, right)
}

/// Whether two lists of directives are the same once each identifier is replaced by its name in its table. Spans do
/// not count.
pub fn same_directives(
    left_names: &Names,
    left: &Vec<GlobalDirectiveNode>,
    right_names: &Names,
    right: &Vec<GlobalDirectiveNode>,
) -> bool
    ensures { IsTrue result ↔ (respell (name_in left_names.now) (directives_tree left.now) ≡ respell (name_in right_names.now) (directives_tree right.now)) }
{
    let tables = Tables {
        left: left_names,
        right: right_names,
        places: false,
    };
    tables.same_directives(left, right)
}

/// Whether two lists of declarations are the same once each identifier is replaced by its name in its table. Spans do
/// not count.
pub fn same_declarations(
    left_names: &Names,
    left: &Vec<GlobalDeclarationNode>,
    right_names: &Names,
    right: &Vec<GlobalDeclarationNode>,
) -> bool
    ensures { IsTrue result ↔ (respell (name_in left_names.now) (declarations_tree left.now) ≡ respell (name_in right_names.now) (declarations_tree right.now)) }
{
    let tables = Tables {
        left: left_names,
        right: right_names,
        places: false,
    };
    tables.same_declarations(left, right)
}
