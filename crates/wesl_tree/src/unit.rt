//! Whole modules.
ghost use Rattle.std.specs.Prelude.{◌≡◌, ◌↔◌, IsTrue, true, false, not, length, [], ◌∷◌, MatchOption};
ghost use Rattle.wesl_tree_syntax.specs.Tree.{tree_below, forest_of};
ghost use Rattle.wesl_tree_syntax.specs.Shown.{unnamed};
ghost use Rattle.wesl_tree_syntax.specs.Unit.{unit_below, empty_unit, spelled, begins_void, without_voids};
ghost use Rattle.wesl_tree_syntax.specs.View.{imports_tree, directives_tree, declarations_tree, global_view};
ghost use Rattle.wesl_tree.specs.Parts.{parts_view};

use std::alloc::Global;
use wesl_tree_bounds::{declarations_are_below, directives_are_below, imports_are_below};
use wesl_tree_names::Names;
use wesl_tree_spelling::{Tables, same_declarations, same_directives, same_imports};
use wesl_tree_syntax::{
    GlobalDeclaration, GlobalDeclarationNode, GlobalDirectiveNode, ImportStatementNode,
};

/// A module: a table of names, and the imports, directives and declarations whose identifiers are numbers of it.
///
/// Every identifier has a name in the table.
pub struct TranslationUnit {
    names: Names,
    imports: Vec<ImportStatementNode>,
    directives: Vec<GlobalDirectiveNode>,
    declarations: Vec<GlobalDeclarationNode>,
    pub ghost is_within: { IsTrue (unit_below (parts_view names imports directives declarations)) },
}

impl Drop for TranslationUnit {
    fn drop(self) {
        let TranslationUnit {
            names: _,
            imports: _,
            directives: _,
            declarations: _,
        } = self;
    }
}

/// Whether it declares something.
fn is_declaring(node: &GlobalDeclarationNode) -> bool
    ensures { result ≡ not (begins_void (forest_of (global_view node.now.node ∷ []))) }
{
    match &node.node {
        GlobalDeclaration::Void => false,
        _ => true,
    }
}

impl TranslationUnit {
    ghost use Rattle.wesl_tree.specs.Translation.{unit_view};

    /// A unit without names and nodes. It takes no memory.
    pub fn new(alloc: Global) -> TranslationUnit
        ensures { unit_view result ≡ empty_unit }
    {
        TranslationUnit {
            names: Names::new(alloc),
            imports: Vec::new(alloc),
            directives: Vec::new(alloc),
            declarations: Vec::new(alloc),
        }
    }

    /// The unit of these parts, or `None` where an identifier has no name in the table. It takes no memory.
    pub fn from_parts(
        names: Names,
        imports: Vec<ImportStatementNode>,
        directives: Vec<GlobalDirectiveNode>,
        declarations: Vec<GlobalDeclarationNode>,
    ) -> Option<TranslationUnit>
        ensures { let parts = parts_view names imports directives declarations in MatchOption result (unit_below parts ≡ false) (λ unit. (unit_view unit ≡ parts) × IsTrue (unit_below parts)) }
    {
        let bound = names.len();
        if imports_are_below(bound, &imports)
            && directives_are_below(bound, &directives)
            && declarations_are_below(bound, &declarations)
        {
            Some(TranslationUnit {
                names,
                imports,
                directives,
                declarations,
            })
        } else {
            None
        }
    }

    /// The names, imports, directives and declarations.
    pub fn into_parts(
        self,
    ) -> (
        Names,
        Vec<ImportStatementNode>,
        Vec<GlobalDirectiveNode>,
        Vec<GlobalDeclarationNode>,
    )
        ensures parts { parts_view result.0 result.1 result.2 result.3 ≡ unit_view self }
        ensures below { IsTrue (unit_below (unit_view self)) }
    {
        let TranslationUnit {
            names,
            imports,
            directives,
            declarations,
        } = self;
        (names, imports, directives, declarations)
    }

    /// The table of names.
    pub fn names(&self) -> &Names
        ensures names { result.now ≡ (unit_view self.now).names }
        ensures below { IsTrue (unit_below (unit_view self.now)) }
    {
        &self.names
    }

    /// The imports, in the order of the source.
    pub fn imports(&self) -> &Vec<ImportStatementNode>
        ensures imports { imports_tree result.now ≡ (unit_view self.now).imports }
        ensures below { IsTrue (tree_below (length (unit_view self.now).names) (imports_tree result.now)) }
    {
        &self.imports
    }

    /// The directives, in the order of the source.
    pub fn global_directives(&self) -> &Vec<GlobalDirectiveNode>
        ensures directives { directives_tree result.now ≡ (unit_view self.now).directives }
        ensures below { IsTrue (tree_below (length (unit_view self.now).names) (directives_tree result.now)) }
    {
        &self.directives
    }

    /// The declarations, in the order of the source.
    pub fn global_declarations(&self) -> &Vec<GlobalDeclarationNode>
        ensures declarations { declarations_tree result.now ≡ (unit_view self.now).declarations }
        ensures below { IsTrue (tree_below (length (unit_view self.now).names) (declarations_tree result.now)) }
    {
        &self.declarations
    }

    /// Drops the void declarations. The others keep their order, and no memory is taken.
    pub fn remove_voids(&mut self)
        ensures { let unit = unit_view self.old in unit_view self.new ≡ record unit { declarations = record unit.declarations { children = without_voids unit.declarations.children } } }
    {
        self.declarations.retain(is_declaring);
    }

    /// Whether two units are the same once each identifier is replaced by its name. Spans do not count, and no memory
    /// is taken.
    pub fn same_spelling(&self, other: &TranslationUnit) -> bool
        ensures { IsTrue result ↔ (spelled (unit_view self.now) ≡ spelled (unit_view other.now)) }
    {
        same_imports(&self.names, &self.imports, &other.names, &other.imports)
            && same_directives(
                &self.names,
                &self.directives,
                &other.names,
                &other.directives,
            )
            && same_declarations(
                &self.names,
                &self.declarations,
                &other.names,
                &other.declarations,
            )
    }

    /// Whether two units have the same nodes at the same places of their sources. What identifiers are called does not
    /// count, while all else that a node holds does, as texts and operators. No memory is taken.
    ///
    /// With `same_spelling` it says that two units agree in all but the numbers of their identifiers:
    ///
    /// ```
    /// let is_equal = unit.same_spelling(&other) && unit.same_spans(&other);
    /// ```
    pub fn same_spans(&self, other: &TranslationUnit) -> bool
        ensures { IsTrue result ↔ (unnamed (unit_view self.now) ≡ unnamed (unit_view other.now)) }
    {
        let tables = Tables {
            left: &self.names,
            right: &other.names,
            places: true,
        };
        tables.imports_agree(&self.imports, &other.imports)
            && tables.directives_agree(&self.directives, &other.directives)
            && tables.declarations_agree(&self.declarations, &other.declarations)
    }
}
